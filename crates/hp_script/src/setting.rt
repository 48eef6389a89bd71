//! What an expression may use.

ghost use Rattle.std.specs.Prelude.{◌≡◌};
ghost use Rattle.hp_script.specs.Contexts.{setting_here};
ghost use Rattle.hp_script.specs.Settings.{setting_view};

use crate::scope::Scope;
use crate::version::Version;
use hp_rule::{Context, KnownNames};

/// What an expression may use: the forms of its version, and the names that are known.
#[derive(Clone, Copy)]
pub(crate) struct Setting<'a> {
    pub version: Version,
    pub names: KnownNames<'a>,
}

impl Setting<'_> {
    ghost use Rattle.hp_model.specs.Scopes.{row_setting};

    /// This setting, with one more name of a row.
    pub(crate) fn with_row<'b>(&'b self, newest: &'b str) -> Setting<'b>
        ensures { setting_view result ≡ row_setting newest.entry.now (setting_view self.entry.now) }
    {
        Setting {
            version: self.version,
            names: self.names.with_row(newest),
        }
    }
}

/// The setting of a statement.
pub(crate) fn setting_of<'a>(context: &Context<'a, Scope<'_>>) -> Setting<'a>
    ensures { setting_view result ≡ setting_here context.now }
{
    Setting {
        version: context.scope.version,
        names: context.names,
    }
}
