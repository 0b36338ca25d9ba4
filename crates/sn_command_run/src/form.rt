//! How answers are written.

/// How the answers of windows are written.
#[derive(Clone, Copy, Debug, PartialEq, Eq)]
pub enum Form {
    /// In blocks, after which come the damage and the total.
    Blocks,
    /// As comma-separated values below a heading, with no other line.
    Records,
}

impl Form {
    ghost use Rattle.std.specs.Prelude.{◌≡◌};
    ghost use Rattle.sn_command_run.specs.Planned.{form_of};

    /// The form of `run`, with `--csv` or without it.
    pub fn of_csv(csv: bool) -> Form
        ensures { result ≡ form_of csv }
    {
        if csv { Form::Records } else { Form::Blocks }
    }
}
