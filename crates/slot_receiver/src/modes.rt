// The numbers of a receiver's modes: it stores them, and C asks for a receiver by them.
ghost use Rattle.std.specs.Prelude.{◌≡◌};
ghost use Rattle.slot_receiver.specs.Receiver.{Receiver};
ghost use Rattle.slot_receiver.specs.Windows.{kind_of, is_slot};
ghost use Rattle.slot_receiver.specs.View.{mode_of, mode_number};

use crate::{Mode, SlotReceiver};

impl Mode {
    // The number that a receiver stores for it.
    #[tactic(auto, unfolding(crate::specs::View::mode_number))]
    pub fn number(self) -> u8
        ensures { result ≡ mode_number self }
    {
        self as u8
    }

    // Whether its windows hand slots over.
    #[tactic(auto, using(crate::proofs::Handing::search_hands_none), unfolding(crate::specs::Windows::is_slot, crate::specs::Windows::kind_of))]
    pub(crate) fn hands_over(self) -> bool
        ensures { (r : Receiver) → result ≡ is_slot (kind_of self r) }
    {
        match self {
            Mode::Idle | Mode::DlUnsynchronized => false,
            Mode::Dl | Mode::Ul => true,
        }
    }
}

// A number that is no mode's counts as Idle's.
impl From<u32> for Mode {
    ghost use Rattle.std.specs.Prelude.{◌≡◌};
    ghost use Rattle.slot_receiver.specs.View.{mode_of};

    ghost from_gives = { λ number mode. mode ≡ mode_of number };

    #[tactic(auto, unfolding(crate::specs::View::mode_of))]
    fn from(number: u32) -> Mode {
        match number {
            1 => Mode::DlUnsynchronized,
            2 => Mode::Dl,
            3 => Mode::Ul,
            _ => Mode::Idle,
        }
    }
}

impl SlotReceiver {
    // The mode that is stored.
    pub fn mode(&self) -> Mode
        ensures { result ≡ mode_of self.now.mode }
    {
        Mode::from(u32::from(self.mode))
    }
}
