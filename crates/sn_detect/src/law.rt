//! A law on stays. A program never calls this function.
ghost use Rattle.std.specs.Prelude.{◌≡◌, List};
ghost use Rattle.sn_detect.specs.declared.look.Look.{Look};
ghost use Rattle.sn_detect.specs.declared.stay.Stay.{Stay};
ghost use Rattle.sn_detect.specs.Finding.{stays_of};
ghost use Rattle.sn_detect.specs.Keeping.{Rise};
ghost use Rattle.sn_detect.specs.Stays.{AreStays, HeldIn, ReportedIn};

/// Windows that rise have exactly one list of stays: the one that is found.
pub fn windows_have_one_list_of_stays()
    ensures are { (looks : List Look) → Rise looks → AreStays (HeldIn looks) (ReportedIn looks) (stays_of looks) }
    ensures one { (looks : List Look) (stays : List Stay) → Rise looks → AreStays (HeldIn looks) (ReportedIn looks) stays → stays ≡ stays_of looks }
{}
