// Which preambles there are.
ghost use Rattle.std.specs.Prelude.{◌≡◌};
ghost use Rattle.rows.specs.Runs.Verdict.{allowed};
ghost use Rattle.report.specs.Categories.{preambles};

pub(crate) fn is_preamble(v: u8) -> bool
    ensures { result ≡ allowed preambles v }
{
    matches!(v, 0x53 | 0x9A | 0xC6)
}
