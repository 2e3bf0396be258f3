ghost use Rattle.std.specs.Prelude.{◌≡◌};
ghost use Rattle.exh_stores.specs.declared.pages_fault.PagesFault.{PagesFault};
ghost use Rattle.exh_legal.specs.declared.halves_fault.HalvesFault.{HalvesFault};
ghost use Rattle.exh_ward.specs.WardFault.{fault_of, fault_of_halves, ward_fault_number};
ghost use Rattle.exh_ward.specs.declared.ward_fault.WardFault.TheVariants.{Memory};

use exh_legal::HalvesFault;
use exh_stores::PagesFault;
use std::alloc::AllocError;
use thiserror::Error;

/// Why a ward refused a step. It is as it was before the step.
#[derive(Clone, Copy, Debug, PartialEq, Eq, Error)]
pub enum WardFault {
    /// There is no page of this number: number 1.
    #[error("no such page")]
    NoPage,
    /// The page sends callers on: number 3.
    #[error("the page isn't live")]
    NotLive,
    /// The page has fewer records than a page may: number 4.
    #[error("the page isn't full")]
    NotFull,
    /// The page's prefix has no children: number 5.
    #[error("the page's prefix has the greatest length")]
    AtLimit,
    /// The page's prefix is the ward's own, or ends in 1: number 6.
    #[error("the page is no left half")]
    NoBuddy,
    /// No live page has the right buddy's prefix: number 7.
    #[error("the page's right buddy was split")]
    BuddySplit,
    /// Both pages have this many records together, more than a page may: number 8.
    #[error("both pages have {0} records together")]
    TooMany(usize),
    /// The number at the parent is the greatest: number 9.
    #[error("the number at the parent is the greatest")]
    Worn,
    /// A growth was refused: number 10.
    #[error("out of memory")]
    Memory,
    /// A page couldn't be reached, which the ward's store has counted: number 11.
    #[error("a page is out of reach")]
    Page,
}

impl WardFault {
    /// The refusal's number among all refusals.
    pub fn number(self) -> u8
        ensures { result ≡ ward_fault_number self }
    {
        match self {
            WardFault::NoPage => 1,
            WardFault::NotLive => 3,
            WardFault::NotFull => 4,
            WardFault::AtLimit => 5,
            WardFault::NoBuddy => 6,
            WardFault::BuddySplit => 7,
            WardFault::TooMany(_) => 8,
            WardFault::Worn => 9,
            WardFault::Memory => 10,
            WardFault::Page => 11,
        }
    }
}

impl From<AllocError> for WardFault {
    ghost from_gives = { λ _ fault. fault ≡ Memory };

    fn from(_error: AllocError) -> WardFault {
        WardFault::Memory
    }
}

impl From<PagesFault> for WardFault {
    ghost from_gives = { λ error fault. fault ≡ fault_of error };

    fn from(error: PagesFault) -> WardFault {
        match error {
            PagesFault::Memory => WardFault::Memory,
            PagesFault::Page => WardFault::Page,
        }
    }
}

impl From<HalvesFault> for WardFault {
    ghost from_gives = { λ error fault. fault ≡ fault_of_halves error };

    fn from(error: HalvesFault) -> WardFault {
        match error {
            HalvesFault::NotLive => WardFault::NotLive,
            HalvesFault::NotFull => WardFault::NotFull,
            HalvesFault::AtLimit => WardFault::AtLimit,
            HalvesFault::NoBuddy => WardFault::NoBuddy,
            HalvesFault::BuddySplit => WardFault::BuddySplit,
            HalvesFault::TooMany(sum) => WardFault::TooMany(sum),
        }
    }
}
