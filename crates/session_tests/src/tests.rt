use basics::node::NodeNumber;
use basics::refusal::Refusal;
use basics::set::NumberSet;
use basics::transaction::{TransactionNumber, TransactionSet};
use graph::reach_mask;
use plans::plan::Plan;
use rules::rule::LockRule;
use rules::tree::TreeRule;
use session::answer::{Answer, Reply, same_answers};
use session::state::Session;
use std::process::Abort;
use std::test::Fail;
use stores::store::NodeStore;
use stores::table::{Row, TableStore};

const T0: TransactionNumber = TransactionNumber(0);

const T1: TransactionNumber = TransactionNumber(1);

const T2: TransactionNumber = TransactionNumber(2);

const ROOT: NodeNumber = NodeNumber(0);

const LEFT: NodeNumber = NodeNumber(1);

const RIGHT: NodeNumber = NodeNumber(2);
// The child of the left node.
const LEAF: NodeNumber = NodeNumber(3);

const NO_NODE: NodeNumber = NodeNumber(4);

const DONE: Answer = Ok(Reply::Done(0));

#[derive(Clone, Copy, Drop)]
enum Step {
    Begin,
    Lock(TransactionNumber, NodeNumber),
    Release(TransactionNumber, NodeNumber),
    Read(TransactionNumber, NodeNumber),
    Write(TransactionNumber, NodeNumber, i32),
    Adjust(TransactionNumber, NodeNumber, i32),
    Withdraw(TransactionNumber),
    End(TransactionNumber),
}

fn tree() -> Result<Plan, Refusal> {
    let mut plan = Plan::new();
    plan.add(8, &[])?;
    plan.add(8, &[ROOT])?;
    plan.add(8, &[ROOT])?;
    plan.add(8, &[LEFT])?;
    Ok(plan)
}

// The right node's value lies outside its range, and the range of the leaf is empty.
fn values() -> Result<TableStore, Refusal> {
    let mut store = TableStore::new();
    store.add(Row {
        value: 5,
        low: 0,
        high: 10,
    })?;
    store.add(Row {
        value: -3,
        low: -10,
        high: 10,
    })?;
    store.add(Row {
        value: 20,
        low: 0,
        high: 10,
    })?;
    store.add(Row {
        value: 0,
        low: 5,
        high: -5,
    })?;
    Ok(store)
}

fn call<R: LockRule, S: NodeStore>(session: &mut Session<R, S>, step: Step) -> Answer {
    match step {
        Step::Begin => session.begin(),
        Step::Lock(t, n) => session.lock(t, n),
        Step::Release(t, n) => session.release(t, n),
        Step::Read(t, n) => session.read(t, n),
        Step::Write(t, n, v) => session.write(t, n, v),
        Step::Adjust(t, n, d) => session.adjust(t, n, d),
        Step::Withdraw(t) => session.withdraw(t),
        Step::End(t) => session.end(t),
    }
}

fn calls<R: LockRule, S: NodeStore>(session: &mut Session<R, S>, steps: &[Step]) {
    for step in steps {
        let _ = call(session, *step);
    }
}

// The handle and the session, here and below, are two things that each test has at hand: a struct would be made for the call.
fn answered<R: LockRule, S: NodeStore>(
    rt: &impl Abort,
    session: &mut Session<R, S>,
    steps: &[(Step, Answer)],
) {
    for (step, answer) in steps {
        assert_eq!(rt; call(session, *step), *answer);
    }
}

// Tries a new session.
fn tried<F: FnOnce(&mut Session<TreeRule<'_>, TableStore>)>(body: F) -> Result<(), Fail>
    requires { F.IsAlwaysCallable body }
{
    let plan = tree()?;
    let mut session = Session::new(TreeRule { plan: &plan }, values()?);
    body(&mut session);
    Ok(())
}

// A new session answers these steps so.
fn answers(rt: &impl Abort, steps: &[(Step, Answer)]) -> Result<(), Fail> {
    tried(|session| answered(rt, session, steps))
}

#[test]
fn begins_32_transactions(rt: HostRuntime) -> Result<(), Fail> {
    tried(|session| {
        for t in 0..32 {
            assert_eq!(rt; session.begin(), Ok(Reply::Done(t)));
        }
        assert_eq!(rt; session.begin(), Err(Refusal::TooManyTransactions));
    })
}

#[test]
fn refuses_who_is_not_begun(rt: HostRuntime) -> Result<(), Fail> {
    answers(
        &rt,
        &[
            (Step::Lock(T0, ROOT), Err(Refusal::NotBegun)),
            (Step::Release(T0, NO_NODE), Err(Refusal::NotBegun)),
            (Step::Begin, Ok(Reply::Done(0))),
            (Step::Read(T1, ROOT), Err(Refusal::NotBegun)),
            (
                Step::Write(TransactionNumber(255), ROOT, 1),
                Err(Refusal::NotBegun),
            ),
            (
                Step::Adjust(TransactionNumber(32), NO_NODE, 100_000),
                Err(Refusal::NotBegun),
            ),
            (Step::Withdraw(T1), Err(Refusal::NotBegun)),
            (Step::End(T1), Err(Refusal::NotBegun)),
        ],
    )
}

#[test]
fn refuses_who_is_ended(rt: HostRuntime) -> Result<(), Fail> {
    answers(
        &rt,
        &[
            (Step::Begin, Ok(Reply::Done(0))),
            (Step::End(T0), DONE),
            (Step::Lock(T0, NO_NODE), Err(Refusal::AlreadyEnded)),
            (Step::Release(T0, ROOT), Err(Refusal::AlreadyEnded)),
            (Step::Read(T0, NO_NODE), Err(Refusal::AlreadyEnded)),
            (Step::Write(T0, ROOT, 1), Err(Refusal::AlreadyEnded)),
            (Step::Adjust(T0, ROOT, 100_000), Err(Refusal::AlreadyEnded)),
            (Step::Withdraw(T0), Err(Refusal::AlreadyEnded)),
            (Step::End(T0), Err(Refusal::AlreadyEnded)),
        ],
    )
}

#[test]
fn looks_for_the_node_before_the_wait(rt: HostRuntime) -> Result<(), Fail> {
    answers(
        &rt,
        &[
            (Step::Begin, Ok(Reply::Done(0))),
            (Step::Begin, Ok(Reply::Done(1))),
            (Step::Lock(T0, ROOT), DONE),
            (Step::Lock(T1, NO_NODE), Err(Refusal::NoSuchNode)),
            (Step::Lock(T1, ROOT), Ok(Reply::Waiting(T0))),
            (Step::Lock(T1, NO_NODE), Err(Refusal::NoSuchNode)),
            (Step::Release(T1, NO_NODE), Err(Refusal::NoSuchNode)),
            (Step::Read(T1, NodeNumber(255)), Err(Refusal::NoSuchNode)),
            (Step::Write(T1, NO_NODE, 1), Err(Refusal::NoSuchNode)),
            (Step::Adjust(T1, NO_NODE, 100_000), Err(Refusal::NoSuchNode)),
            (Step::Lock(T1, LEFT), Err(Refusal::StillWaiting)),
            (Step::Release(T1, ROOT), Err(Refusal::StillWaiting)),
            (Step::Read(T1, ROOT), Err(Refusal::StillWaiting)),
            (Step::Write(T1, ROOT, 1), Err(Refusal::StillWaiting)),
            (Step::Adjust(T1, ROOT, 100_000), Err(Refusal::StillWaiting)),
            (Step::End(T1), Err(Refusal::StillWaiting)),
        ],
    )
}

#[test]
fn waits_and_withdraws(rt: HostRuntime) -> Result<(), Fail> {
    answers(
        &rt,
        &[
            (Step::Begin, Ok(Reply::Done(0))),
            (Step::Begin, Ok(Reply::Done(1))),
            (Step::Lock(T1, ROOT), DONE),
            (Step::Withdraw(T0), Err(Refusal::NotWaiting)),
            (Step::Lock(T0, ROOT), Ok(Reply::Waiting(T1))),
            (Step::Lock(T0, ROOT), Ok(Reply::Waiting(T1))),
            (Step::Withdraw(T0), DONE),
            (Step::Withdraw(T0), Err(Refusal::NotWaiting)),
            (Step::Lock(T0, LEFT), DONE),
            (Step::Lock(T1, LEFT), Ok(Reply::Waiting(T0))),
            (Step::Release(T0, LEFT), DONE),
            (Step::Lock(T1, LEFT), DONE),
            (Step::End(T1), DONE),
            (Step::End(T0), DONE),
        ],
    )
}

#[test]
fn asks_the_rule(rt: HostRuntime) -> Result<(), Fail> {
    answers(
        &rt,
        &[
            (Step::Begin, Ok(Reply::Done(0))),
            (Step::Begin, Ok(Reply::Done(1))),
            (Step::Lock(T0, LEFT), DONE),
            (Step::Lock(T0, LEFT), Err(Refusal::LockedBefore)),
            (Step::Lock(T0, ROOT), Err(Refusal::RuleDenies)),
            (Step::Lock(T0, RIGHT), Err(Refusal::RuleDenies)),
            (Step::Lock(T0, LEAF), DONE),
            (Step::Release(T0, LEAF), DONE),
            (Step::Lock(T0, LEAF), Err(Refusal::LockedBefore)),
            (Step::Lock(T1, LEAF), DONE),
            (Step::Lock(T1, LEFT), Err(Refusal::RuleDenies)),
        ],
    )
}

#[test]
fn uses_only_what_it_holds(rt: HostRuntime) -> Result<(), Fail> {
    answers(
        &rt,
        &[
            (Step::Begin, Ok(Reply::Done(0))),
            (Step::Begin, Ok(Reply::Done(1))),
            (Step::Lock(T1, ROOT), DONE),
            (Step::Release(T0, ROOT), Err(Refusal::NotHeld)),
            (Step::Read(T0, ROOT), Err(Refusal::NotHeld)),
            (Step::Write(T0, LEFT, 1), Err(Refusal::NotHeld)),
            (Step::Adjust(T0, LEFT, 100_000), Err(Refusal::NotHeld)),
            (Step::Read(T1, ROOT), Ok(Reply::Done(5))),
            (Step::Release(T1, ROOT), DONE),
            (Step::Release(T1, ROOT), Err(Refusal::NotHeld)),
            (Step::Read(T1, ROOT), Err(Refusal::NotHeld)),
        ],
    )
}

#[test]
fn keeps_values_in_range(rt: HostRuntime) -> Result<(), Fail> {
    answers(
        &rt,
        &[
            (Step::Begin, Ok(Reply::Done(0))),
            (Step::Lock(T0, ROOT), DONE),
            (Step::Write(T0, ROOT, 10), DONE),
            (Step::Write(T0, ROOT, 11), Err(Refusal::OutOfRange)),
            (Step::Write(T0, ROOT, -1), Err(Refusal::OutOfRange)),
            (
                Step::Write(T0, ROOT, 2_147_483_647),
                Err(Refusal::OutOfRange),
            ),
            (Step::Read(T0, ROOT), Ok(Reply::Done(10))),
            (Step::Adjust(T0, ROOT, -10), DONE),
            (Step::Adjust(T0, ROOT, -1), Err(Refusal::OutOfRange)),
            (Step::Adjust(T0, ROOT, 65_535), Err(Refusal::OutOfRange)),
            (Step::Adjust(T0, ROOT, -65_535), Err(Refusal::OutOfRange)),
            (
                Step::Adjust(T0, ROOT, 65_536),
                Err(Refusal::AmountOutOfBounds),
            ),
            (
                Step::Adjust(T0, ROOT, -65_536),
                Err(Refusal::AmountOutOfBounds),
            ),
            (
                Step::Adjust(T0, ROOT, -2_147_483_647),
                Err(Refusal::AmountOutOfBounds),
            ),
            (Step::Read(T0, ROOT), DONE),
        ],
    )
}

#[test]
fn gives_the_store_back(rt: HostRuntime) -> Result<(), Fail> {
    let plan = tree()?;
    let mut session = Session::new(TreeRule { plan: &plan }, values()?);
    answered(
        &rt,
        &mut session,
        &[
            (Step::Begin, DONE),
            (Step::Lock(T0, ROOT), DONE),
            (Step::Lock(T0, RIGHT), DONE),
            (Step::Lock(T0, LEFT), DONE),
            (Step::Lock(T0, LEAF), DONE),
            (Step::Read(T0, RIGHT), Ok(Reply::Done(20))),
            (Step::Adjust(T0, RIGHT, -9), Err(Refusal::OutOfRange)),
            (Step::Adjust(T0, RIGHT, -15), DONE),
            (Step::Read(T0, RIGHT), Ok(Reply::Done(5))),
            (Step::Write(T0, LEAF, 0), Err(Refusal::OutOfRange)),
            (Step::Write(T0, LEFT, -10), DONE),
        ],
    );
    let (_, store) = session.into_parts();
    assert_eq!(rt; store.value(LEFT), -10);
    Ok(())
}

fn holders_and_waiters<R: LockRule, S: NodeStore>(rt: &impl Abort, session: &mut Session<R, S>) {
    calls(
        session,
        &[
            Step::Begin,
            Step::Begin,
            Step::Begin,
            Step::Lock(T2, ROOT),
            Step::Lock(T1, LEAF),
            Step::Lock(T0, ROOT),
        ],
    );
    assert_eq!(rt; session.holder(ROOT), Ok(Some(T2)));
    assert_eq!(rt; session.holder(LEFT), Ok(None));
    assert_eq!(rt; session.holder(NO_NODE), Err(Refusal::NoSuchNode));
    let mut short = [9];
    assert_eq!(rt; session.waiting(&mut short), Err(Refusal::ShortBuffer));
    assert_eq!(rt; short, [9]);
    let mut buffer = [9; 3];
    assert_eq!(rt; session.waiting(&mut buffer), Ok(1));
    assert_eq!(rt; buffer, [0, 0, 9]);
    let _ = session.end(T2);
    assert_eq!(rt; session.holder(ROOT), Ok(None));
    assert_eq!(rt;
        session.waiting(&mut buffer),
        Ok(1),
        "its node is free, and it waits"
    );
    let _ = session.withdraw(T0);
    assert_eq!(rt; session.waiting(&mut buffer), Ok(0));
}

#[test]
fn reports_holders_and_waiters(rt: HostRuntime) -> Result<(), Fail> {
    tried(|session| holders_and_waiters(&rt, session))
}

fn serial_order<R: LockRule, S: NodeStore>(rt: &impl Abort, session: &mut Session<R, S>) {
    calls(
        session,
        &[
            Step::Begin,
            Step::Begin,
            Step::Begin,
            Step::Lock(T2, ROOT),
            Step::Release(T2, ROOT),
            Step::Lock(T1, ROOT),
            Step::Lock(T1, LEFT),
            Step::Lock(T0, LEFT),
        ],
    );
    let one = TransactionSet::empty().with(T1);
    let predecessors = session.predecessors();
    assert_eq!(rt; predecessors.of[0], one, "0 waits for 1");
    assert_eq!(rt; predecessors.of[1], TransactionSet::empty().with(T2));
    assert_eq!(rt; predecessors.of[2], TransactionSet::empty());
    assert_eq!(rt; session.before(T0), one.with(T2));
    assert_eq!(rt; session.before(T2), TransactionSet::empty());
    assert_eq!(rt;
        session.before(TransactionNumber(200)),
        TransactionSet::empty()
    );
    let mut short = [9; 2];
    assert_eq!(rt; session.order(&mut short), Err(Refusal::ShortBuffer));
    assert_eq!(rt; short, [9, 9]);
    let mut buffer = [9; 4];
    assert_eq!(rt; session.order(&mut buffer), Ok(3));
    assert_eq!(rt; buffer, [2, 1, 0, 9]);
}

#[test]
fn reports_the_serial_order(rt: HostRuntime) -> Result<(), Fail> {
    tried(|session| serial_order(&rt, session))
}

#[test]
fn reaches_past_its_transactions(rt: HostRuntime) -> Result<(), Fail> {
    tried(|session| {
        let all = session.predecessors();
        assert_eq!(rt; reach_mask(&all, 1 << 40), 1 << 40);
    })
}

#[test]
fn tells_answers_apart(rt: HostRuntime) {
    let three = Ok(Reply::Done(3));
    assert!(rt; same_answers(three, three));
    assert!(rt; !same_answers(three, DONE), "another number");
    assert!(rt;
        !same_answers(three, Ok(Reply::Waiting(TransactionNumber(3)))),
        "done and waiting"
    );
    assert!(rt; !same_answers(Err(Refusal::NotHeld), Err(Refusal::NotWaiting)));
}
