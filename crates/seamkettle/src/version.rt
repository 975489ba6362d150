// Which version of the library this is: 10,000 times the major number, 100 times the minor and the patch, as KETTLE_VERSION of the
// header has it. A host asks at its start whether header and archive are of one version.
ghost use Rattle.std.specs.Prelude.{◌≡◌};
ghost use Rattle.seamkettle.specs.Calls.{version};

pub fn kettle_version() -> u32
    ensures { result ≡ version }
{
    400
}
