// What a refusal's line tells, whatever the refusal is told by.
use listing::Reason;

// A number and a place. A line may have any, those that no reason has too.
#[derive(Clone, Copy)]
pub struct Refused {
    pub number: u8,
    pub place: usize,
}

// What has a number and a place to tell.
pub trait Refuses: Drop {
    ghost use Rattle.std.specs.Prelude.{◌≡◌};
    ghost use Rattle.say.specs.declared.refuses.Refused.{Refused};

    ghost told: { Self → Refused };

    fn refused(self) -> Refused
        ensures { result ≡ told self };
}

impl Refuses for Refused {
    ghost told = { λ refused. refused };

    fn refused(self) -> Refused {
        self
    }
}

impl Refuses for Reason {
    ghost use Rattle.say.specs.Inner.Answers.{of_reason};

    ghost told = { of_reason };

    fn refused(self) -> Refused {
        Refused {
            number: self.number(),
            place: self.place(),
        }
    }
}
