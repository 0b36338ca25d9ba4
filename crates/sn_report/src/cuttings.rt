//! How bytes are cut into frames. A program never calls these functions; each states a fact about the definitions.
ghost use Rattle.std.specs.Prelude.{ℕ, List};
ghost use Rattle.std.specs.List.{AllByRecursion};
ghost use Rattle.sn_report.specs.declared.decode.Decoded.{Decoded};
ghost use Rattle.sn_report.specs.Framed.{AreReports, HasOneCutting, IsWritten, Written, bytes_of};

/// All bytes are cut in exactly one way.
pub fn bytes_are_cut_in_one_way()
    ensures { (bytes : List ℕ) → HasOneCutting bytes }
{}

/// The bytes of frames whose numbers are in the range of their versions are cut into these frames, and nothing is left of them.
pub fn frames_are_cut_again()
    ensures { (frames : List Written) → AllByRecursion IsWritten frames → AreReports (bytes_of frames) frames Decoded.More }
{}
