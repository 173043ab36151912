// The version. The function's name has the major and the minor number in it, and include/readability.h makes every program refer to that name, so that a program links only with a library whose version its header has.
ghost use Rattle.std.specs.Prelude.{◌≡◌};
ghost use Rattle.version.specs.Version.{version};

#[unsafe(no_mangle)]
pub extern "C" fn readability_version_0_3() -> u32
    ensures { result ≡ version }
{
    exports::readability_version_0_3()
}
