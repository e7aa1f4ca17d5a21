// The library's version.
ghost use Rattle.std.specs.Prelude.{◌≡◌};
ghost use Rattle.chizuregwo.specs.Version.{version};

// The version: 10,000 times the major, 100 times the minor and the patch number.
#[unsafe(no_mangle)]
pub extern "C" fn czg_version() -> u32
    ensures { result ≡ version }
{
    chizuregwo::versions::czg_version()
}
