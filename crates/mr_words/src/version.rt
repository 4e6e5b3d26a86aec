//! The version of the program.
ghost use Rattle.std.specs.Prelude.{◌≡◌};
ghost use Rattle.mr_words.specs.Version.{told_number, told_version};

/// A version, as it is told.
#[derive(Clone, Copy, Debug)]
pub struct Version {
    /// The number, as the changelog has it.
    pub number: &'static str,
    /// The line that tells it.
    pub line: &'static str,
}

/// The version of a number.
macro_rules! version {
    ($number:literal) => {
        Version {
            number: $number,
            line: concat!("migctl ", $number, "\n"),
        }
    };
}

/// The version of the program: the newest of the changelog. `told_version` in `specs` has the same number.
pub const VERSION: Version = version!("0.15.1");

/// The line that tells the version of the program.
pub fn version_line() -> &'static str
    ensures { result.now ≡ told_version }
{
    VERSION.line
}

/// The version of the program, as its number.
pub fn version_number() -> &'static str
    ensures { result.now ≡ told_number }
{
    VERSION.number
}
