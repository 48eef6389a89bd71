//! Laws of what the graph gives.

ghost use Rattle.hp_analysis.specs.Reached.{ReachedIsLeast, UnreachedNeverFire};
ghost use Rattle.hp_analysis.specs.Installed.{InstalledSuffice, OthersDoNothing, KnownDepthHolds};
ghost use Rattle.hp_analysis.specs.Guards.{GuardsHold};
ghost use Rattle.hp_analysis.specs.Links.{LinksStand};
ghost use Rattle.hp_analysis.specs.Witness.{ChainIsPath, ChainIsPathAmong};

/// The rules that are reached are the least set that has what the units trigger, and what each of its rules may
/// trigger.
pub fn reached_is_least()
    ensures { ReachedIsLeast }
{}

/// The units fire no rule that isn't reached, whatever the state is.
pub fn unreached_never_fire()
    ensures { UnreachedNeverFire }
{}

/// The chain that is given for a rule which begins one of more than `more` firings is a path of the triggering graph:
/// each rule of it may trigger the next. It has one firing more than that.
pub fn chain_is_path()
    ensures library { ChainIsPath }

    // Also where the rules outside a set do nothing.
    ensures among { ChainIsPathAmong }
{}

/// Wherever a firing of a rule may trigger another one there is a link. At its first path stands a statement of the
/// rule's action, or the mode by which a transaction of its own commits. At the second one stands a pattern of the
/// other rule's event that what is signalled may end, or that rule if the statement fires it.
pub fn links_stand()
    ensures { LinksStand }
{}

/// A script installs no rules but those that are found as installed. So it does the same if the others do nothing.
pub fn others_do_nothing()
    ensures suffice { InstalledSuffice }
    ensures same { OthersDoNothing }
{}

/// If a script's depth is known by the rules that are ever installed, nothing in its run ends since firings nest too
/// deep.
pub fn known_depth_holds()
    ensures { KnownDepthHolds }
{}

/// In each run of a kinded script, no cause ends the condition of a guard that isn't closed and has no opening, and no
/// cause of arithmetic or of kinds its action.
pub fn guards_hold()
    ensures { GuardsHold }
{}
