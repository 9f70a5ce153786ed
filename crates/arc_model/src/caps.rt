//! The caps of the counts, each in its range.

ghost use Rattle.std.specs.Prelude.{◌≡◌, ◌↔◌, IfOk};
ghost use Rattle.arc_model.specs.Ranges.{StrongCapFits, UnownedCapFits, WideCapFits};

use std::alloc::AllocError;
use std::marker::Model;

/// The greatest counts that a header and a side table entry may hold. This project's own.
#[derive(Debug)]
pub struct Caps {
    strong: u32,
    unowned: u32,
    wide: u32,
}

impl Model for Caps {
    ghost use Rattle.arc_model.specs.Shapes.{CapNumbers};

    ghost Value = { CapNumbers };

    ghost view = { λ c. record { strong = c.strong; unowned = c.unowned; wide = c.wide } };

    ghost use Rattle.arc_model.specs.Ranges.{CapsFit};

    ghost invariant = { λ c. CapsFit c.strong c.unowned c.wide };

    ghost inverse = { λ v. record { strong = v.strong; unowned = v.unowned; wide = v.wide } };
}

impl Clone for Caps {
    ghost use Rattle.std.specs.Prelude.{◌≡◌};

    ghost is_clone = { λ old new. new ≡ old };

    fn clone(&self) -> Result<Self, AllocError> {
        Ok(*self)
    }
}

impl Copy for Caps {}

/// The first cap that is out of its range.
#[derive(Clone, Copy, Debug, PartialEq, Eq)]
pub enum CapsRefused {
    Strong,
    Unowned,
    Wide,
}

impl Caps {
    /// The caps, or the first of the three numbers that is out of its range: `strong` is 0 to 1,073,741,823, `unowned`
    /// 1 to 2,147,483,647, and `wide` at least `strong` plus 1 and at least `unowned`.
    pub fn new(strong: u32, unowned: u32, wide: u32) -> Result<Caps, CapsRefused>
        ensures strong { (result ≡ Err CapsRefused.Strong) ↔ ¬ (StrongCapFits strong) }
        ensures unowned { (result ≡ Err CapsRefused.Unowned) ↔ (StrongCapFits strong × ¬ (UnownedCapFits unowned)) }
        ensures wide { (result ≡ Err CapsRefused.Wide) ↔ (StrongCapFits strong × UnownedCapFits unowned × ¬ (WideCapFits strong unowned wide)) }
        ensures ok { IfOk result (λ c. c ≡ record { strong = strong; unowned = unowned; wide = wide }) }
    {
        if strong > 1_073_741_823 {
            return Err(CapsRefused::Strong);
        }
        if unowned < 1 || unowned > 2_147_483_647 {
            return Err(CapsRefused::Unowned);
        }
        if wide <= strong || wide < unowned {
            return Err(CapsRefused::Wide);
        }
        Ok(Caps {
            strong,
            unowned,
            wide,
        })
    }

    /// The greatest strong extra count of a header.
    pub fn strong(&self) -> u32
        ensures { result ≡ self.now.strong }
    {
        self.strong
    }

    /// The greatest unowned count of a header.
    pub fn unowned(&self) -> u32
        ensures { result ≡ self.now.unowned }
    {
        self.unowned
    }

    /// The greatest count of a side table entry.
    pub fn wide(&self) -> u32
        ensures { result ≡ self.now.wide }
    {
        self.wide
    }
}
