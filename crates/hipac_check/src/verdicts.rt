//! The lines of the verdicts.

ghost use Rattle.std.specs.Prelude.{◌≡◌, ◌∷◌, [], OnOk, codes, decimal};
ghost use Rattle.hp_model.specs.Report.{line};
ghost use Rattle.hp_report.specs.Text.{Gains};
ghost use Rattle.hp_analysis.specs.Checking.{kinds_line, depth_line, guards_line};

use std::alloc::AllocError;
use std::fmt::Write;

/// Adds the verdict on kinds.
pub(crate) fn put_kinds(out: &mut String, pass: bool) -> Result<(), AllocError>
    ensures { OnOk result (Gains out.old out.new (kinds_line pass)) }
{
    if pass {
        return out.push_str("kinds ok\n");
    }
    out.push_str("kinds unknown\n")
}

/// Adds the verdict on the depth for whatever transactions come.
fn put_known(out: &mut String, most: u8, limit: u8) -> Result<(), AllocError>
    ensures { OnOk result (Gains out.old out.new
        (line 0 (codes "depth" ∷ decimal most ∷ codes "of" ∷ decimal limit ∷ []))) }
{
    writeln!(out, "depth {most} of {limit}")?;
    Ok(())
}

/// Adds the verdict on the depth for the script's own transactions.
fn put_own(out: &mut String, most: u8, limit: u8) -> Result<(), AllocError>
    ensures { OnOk result (Gains out.old out.new
        (line 0 (codes "depth" ∷ decimal most ∷ codes "of" ∷ decimal limit ∷ codes "here" ∷ []))) }
{
    writeln!(out, "depth {most} of {limit} here")?;
    Ok(())
}

/// Adds the verdict on the depth of firings: for whatever transactions come, or else for the script's own, or else
/// none.
pub(crate) fn put_depth(
    out: &mut String,
    limit: u8,
    any: Option<u8>,
    own: Option<u8>,
) -> Result<(), AllocError>
    ensures { OnOk result (Gains out.old out.new (depth_line limit any own)) }
{
    match (any, own) {
        (Some(most), _) => put_known(out, most, limit),
        (None, Some(most)) => put_own(out, most, limit),
        (None, None) => out.push_str("depth unknown\n"),
    }
}

/// Adds the verdict on guards.
pub(crate) fn put_guards(out: &mut String, closed: bool) -> Result<(), AllocError>
    ensures { OnOk result (Gains out.old out.new (guards_line closed)) }
{
    if closed {
        return out.push_str("guards closed\n");
    }
    out.push_str("guards unknown\n")
}
