// What a session answers.
ghost use Rattle.std.specs.Prelude.{◌≡◌, true, ◌↔◌};
ghost use Rattle.session.specs.Equal.{SameReply, equal_replies, SameAnswer, equal_answers};
ghost use Rattle.std.specs.Cmp.Rules.{comparing};
ghost use Rattle.std.proofs.Common.{rules};

use basics::refusal::Refusal;
use basics::transaction::TransactionNumber;

// Done, with a number, or waiting, with the holder of the node.
#[derive(Clone, Copy, Debug, Drop)]
pub enum Reply {
    Done(i32),
    Waiting(TransactionNumber),
}

// A reply, or the cause of the refusal.
pub type Answer = Result<Reply, Refusal>;

// By hand: `==` promises `same` by a clause of its own; derived, it would need a method beside it to carry that.
impl PartialEq for Reply {
    ghost eq = { equal_replies };

    ghost laws = { Prim.search (comparing, rules) };

    fn eq(&self, other: &Reply) -> bool
        ensures test { result ≡ equal_replies self.now other.now }
        ensures same { (result ≡ true) ↔ SameReply self.now other.now }
    {
        match (*self, *other) {
            (Reply::Done(x), Reply::Done(y)) => x == y,
            (Reply::Waiting(u), Reply::Waiting(v)) => u == v,
            _ => false,
        }
    }
}

// Whether two answers are the same, which is what `==` says.
pub fn same_answers(a: Answer, b: Answer) -> bool
    ensures test { result ≡ equal_answers a b }
    ensures same { (result ≡ true) ↔ SameAnswer a b }
{
    a == b
}
