// Lines with a word for each transaction or each node.
ghost use Rattle.std.specs.Prelude.{◌≤◌, map, length, codes, decimal};
ghost use Rattle.session.specs.Of.{model_of};
ghost use Rattle.runlines.specs.Lines.{Writes, line_of, order_line, values_line};

use crate::line::Line;
use crate::word::Word;
use basics::node::NodeNumber;
use basics::refusal::Refusal;
use rules::rule::LockRule;
use session::state::Session;
use stores::store::NodeStore;

fn write_transactions(order: &[u8], out: &mut [u8]) -> Result<usize, Refusal>
    requires { length order.now ≤ 32 }
    ensures { Writes (line_of (codes "O") (map decimal order.now)) out.old out.new result }
{
    let mut line = Line::starting(Word::Letter(b'O'));
    for t in order {
        line.next(Word::Number(u32::from(*t)));
    }
    line.finish(out)
}

// The serial order of the session: `O 1 0`.
pub fn write_order<R: LockRule, S: NodeStore>(
    session: &Session<R, S>,
    out: &mut [u8],
) -> Result<usize, Refusal>
    ensures { Writes (order_line (model_of R.rule S.store session.now)) out.old out.new result }
{
    let mut order = [0; 32];
    let n = session.order(&mut order)?;
    write_transactions(&order[..n as usize], out)
}

// The value of each node of the store: `V 0 1 50`.
pub fn write_values<S: NodeStore>(store: &S, out: &mut [u8]) -> Result<usize, Refusal>
    ensures { Writes (values_line (S.store store.now)) out.old out.new result }
{
    let mut line = Line::starting(Word::Letter(b'V'));
    for n in 0..store.count() {
        line.next(Word::Value(store.value(NodeNumber(n))));
    }
    line.finish(out)
}
