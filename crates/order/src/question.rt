// The questions: which card's order stands in for which.
use listing::Reason;

// A stronger model on a weaker one, each by its number in the rules.
#[derive(Clone, Copy)]
pub enum Question {
    ScOnX86,
    ScOnArmv7,
    X86OnArmv7,
    Armv8OnArmv7,
    ScOnArmv8,
    X86OnArmv8,
}

impl Question {
    ghost use Rattle.std.specs.Prelude.{◌≡◌};
    ghost use Rattle.order.specs.Inner.Asking.{asked};

    // How many there are.
    pub const COUNT: usize = 6;

    // Its number.
    pub fn number(self) -> u8
        ensures { result ≡ asked self }
    {
        match self {
            Question::ScOnX86 => 1,
            Question::ScOnArmv7 => 2,
            Question::X86OnArmv7 => 3,
            Question::Armv8OnArmv7 => 4,
            Question::ScOnArmv8 => 5,
            Question::X86OnArmv8 => 6,
        }
    }
}

// The question that the rules have for a byte: they have one for every byte, of which 1 to 6 can be asked.
impl From<u8> for Question {
    ghost use Rattle.order.specs.Inner.Asking.{Means};

    ghost from_gives = { Means };

    fn from(byte: u8) -> Question {
        match byte {
            1 => Question::ScOnX86,
            2 => Question::ScOnArmv7,
            3 => Question::X86OnArmv7,
            4 => Question::Armv8OnArmv7,
            5 => Question::ScOnArmv8,
            _ => Question::X86OnArmv8,
        }
    }
}

// What is asked by a number; one that asks nothing is refused.
impl TryFrom<u64> for Question {
    type Error = Reason;

    ghost use Rattle.order.specs.Inner.Asking.{AskedBy};

    ghost try_from_gives = { AskedBy };

    fn try_from(number: u64) -> Result<Question, Reason> {
        if number < 1 || (Question::COUNT as u64) < number {
            return Err(Reason::Question);
        }
        Ok(Question::from(number as u8))
    }
}
