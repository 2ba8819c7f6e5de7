// Two engineers change phase six at the same time: Anna lets long trucks in and gives them five seconds to clear, Ben
// bars them and gives two. Either is safe; Anna's trucks with Ben's clearance would let them in with two seconds.
use crate::{CLEARANCE, PHASE_SIX, TRUCKS, name};
use anyhow::anyhow;
use basics::node::NodeNumber;
use basics::transaction::TransactionNumber;
use rules::rule::LockRule;
use session::answer::{Answer, Reply};
use session::state::Session;
use stores::store::NodeStore;
use tickets::Ticket;

fn engineer(t: TransactionNumber) -> &'static str {
    if t.0 == 0 { "Anna" } else { "Ben" }
}

fn tell(
    rt: &impl Print,
    ticket: &Ticket,
    deed: &str,
    n: NodeNumber,
    answer: Answer,
) -> anyhow::Result<()> {
    let who = engineer(ticket.number());
    match answer {
        Ok(Reply::Done(_)) => println!(rt; "{who} {deed} {}.", name(n))?,
        Ok(Reply::Waiting(holder)) => println!(rt;
            "{who} waits for {}, which {} holds.",
            name(n),
            engineer(holder)
        )?,
        Err(refusal) => println!(rt; "{who} is refused {}: reason {}.", name(n), refusal.code())?,
    }
    Ok(())
}

// The session in which the two work, and where it is told.
#[derive(Drop)]
struct Scene<'p, 's, P, R, S> {
    rt: &'p P,
    session: &'s mut Session<R, S>,
}

impl<P: Print, R: LockRule, S: NodeStore> Scene<'_, '_, P, R, S> {
    fn lock(&mut self, ticket: &Ticket, n: NodeNumber) -> anyhow::Result<()> {
        let answer = ticket.lock(self.session, n);
        tell(self.rt, ticket, "locks", n, answer)
    }

    fn set(&mut self, ticket: &Ticket, n: NodeNumber, v: i32) -> anyhow::Result<()> {
        let answer = ticket.write(self.session, n, v);
        if let Ok(Reply::Done(_)) = answer {
            println!(self.rt; "{} sets {} to {v}.", engineer(ticket.number()), name(n))?;
            return Ok(());
        }
        tell(self.rt, ticket, "sets", n, answer)
    }

    // Locks the rows from phase six down, and lets phase six go.
    fn take_rows(&mut self, ticket: &Ticket) -> anyhow::Result<()> {
        self.lock(ticket, TRUCKS)?;
        self.lock(ticket, CLEARANCE)?;
        let answer = ticket.release(self.session, PHASE_SIX);
        tell(self.rt, ticket, "releases", PHASE_SIX, answer)
    }

    fn anna_begins(&mut self, anna: &Ticket, ben: &Ticket) -> anyhow::Result<()> {
        self.lock(anna, PHASE_SIX)?;
        self.lock(ben, PHASE_SIX)?;
        self.take_rows(anna)?;
        self.lock(ben, PHASE_SIX)?;
        self.lock(ben, TRUCKS)?;
        self.set(anna, TRUCKS, 1)?;
        self.set(anna, CLEARANCE, 50)
    }

    fn ben_goes_on(&mut self, ben: &Ticket) -> anyhow::Result<()> {
        println!(self.rt; "Anna is done.")?;
        self.take_rows(ben)?;
        self.set(ben, TRUCKS, 0)?;
        self.set(ben, CLEARANCE, 20)?;
        println!(self.rt; "Ben is done.")?;
        Ok(())
    }
}

pub(crate) fn story<R: LockRule, S: NodeStore>(
    rt: &impl Print,
    session: &mut Session<R, S>,
) -> anyhow::Result<()> {
    let anna = Ticket::open(session).map_err(|_| anyhow!("no room for Anna"))?;
    // Not with `?`, since Anna's ticket has to be closed before the return.
    let Ok(ben) = Ticket::open(session) else {
        let _ = anna.close(session);
        return Err(anyhow!("no room for Ben"));
    };
    let first = Scene { rt, session }.anna_begins(&anna, &ben);
    let _ = anna.close(session);
    let second = Scene { rt, session }.ben_goes_on(&ben);
    let _ = ben.close(session);
    first?;
    second
}

// In which order the two can be thought to have run, one after the other.
pub(crate) fn tell_order<R: LockRule, S: NodeStore>(
    rt: &impl Print,
    session: &Session<R, S>,
) -> anyhow::Result<()> {
    let mut order = [0u8; 32];
    let count = session
        .order(&mut order)
        .map_err(|_| anyhow!("the buffer is short"))?;
    print!(rt; "In the serial order:")?;
    for t in order.iter().take(count as usize) {
        print!(rt; " {}", engineer(TransactionNumber(*t)))?;
    }
    println!(rt; ".")?;
    Ok(())
}

pub(crate) fn tell_rows(rt: &impl Print, store: &impl NodeStore) -> anyhow::Result<()> {
    let trucks = store.value(TRUCKS);
    let clearance = store.value(CLEARANCE);
    println!(rt;
        "{} is {trucks}, {} is {clearance}.",
        name(TRUCKS),
        name(CLEARANCE)
    )?;
    if trucks == 1 && clearance == 50 {
        println!(rt; "Both rows are Anna's.")?;
    } else if trucks == 0 && clearance == 20 {
        println!(rt; "Both rows are Ben's, who came last.")?;
    } else {
        println!(rt; "A row from each: this must not be.")?;
    }
    Ok(())
}
