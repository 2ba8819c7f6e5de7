// Why a call is refused.
ghost use Rattle.std.specs.Prelude.{◌≡◌};
ghost use Rattle.basics.specs.Refusals.{code_of};

// Each case is named by its cause, and has a number for texts and output.
#[derive(Clone, Copy, PartialEq, Eq, Debug, Drop)]
pub enum Refusal {
    // A lent buffer is shorter than the call's input or output needs.
    ShortBuffer = 1,
    // The allowance of turns is above its bound.
    AllowanceTooLarge = 2,
    // The text is longer than 16,384 bytes.
    TextTooLong = 3,
    // A line lacks its line feed or has no known form.
    MalformedLine = 4,
    // A line stands outside its section, or the text ends too soon.
    MisplacedLine = 5,
    // A count passes its limit, or a number is out of its bounds.
    LimitExceeded = 6,
    // A node's parents are missing, not rising or not lower, or node 0 has some.
    BadParents = 7,
    // A guard's sets are not rising, or break a rule for one pair.
    BadGuard = 8,
    // A guard fails to meet another guard of its node.
    GuardsApart = 9,
    // All 32 transactions are begun.
    TooManyTransactions = 10,
    // The transaction is not begun.
    NotBegun = 11,
    // The transaction is ended.
    AlreadyEnded = 12,
    // The node is not below the session's count.
    NoSuchNode = 13,
    // The transaction waits, and the call is neither withdraw nor the lock it waits for.
    StillWaiting = 14,
    // The transaction does not wait.
    NotWaiting = 15,
    // The transaction does not hold the node.
    NotHeld = 16,
    // The transaction has locked the node before.
    LockedBefore = 17,
    // The lock rule says no.
    RuleDenies = 18,
    // The amount lies outside -65,535 to 65,535.
    AmountOutOfBounds = 19,
    // The new value is outside the node's range.
    OutOfRange = 20,
}

impl Refusal {
    pub fn code(self) -> u8
        ensures { result ≡ code_of self }
    {
        self as u8
    }
}
