//! A checked program that may run online.
ghost use Rattle.std.specs.Prelude.{true, ◌≡◌};
ghost use Rattle.sb_check.specs.Admission.{all_commute};
ghost use Rattle.sb_check.specs.CheckedView.{checked_of};

use crate::checked::Checked;

/// A checked program of which every store commutes, so that its sums may be made in any order.
#[derive(Drop)]
pub struct Online {
    checked: Checked,
    ghost any_order: { all_commute (checked_of checked).declared.stores ≡ true },
}

impl Online {
    ghost use Rattle.sb_check.specs.OnlineView.{online_of};

    /// The program, of which every store commutes.
    pub(crate) fn new(checked: Checked) -> Online
        requires { all_commute (checked_of checked).declared.stores ≡ true }
        ensures { online_of result ≡ checked_of checked }
    {
        Online { checked }
    }

    /// The checked program.
    pub fn checked(&self) -> &Checked
        ensures value { checked_of result.now ≡ online_of self.now }
        ensures any_order { all_commute (checked_of result.now).declared.stores ≡ true }
    {
        &self.checked
    }
}
