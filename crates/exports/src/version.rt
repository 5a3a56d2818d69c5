// Which entries these are, so that a caller can tell whether it was built for them.
ghost use Rattle.std.specs.Prelude.{◌≡◌};
ghost use Rattle.exports.specs.Version.{checker_version};

const VERSION: u32 = 1;

// The version of the entries.
#[unsafe(no_mangle)]
pub extern "C" fn checker_version() -> u32
    ensures { result ≡ checker_version }
{
    VERSION
}
