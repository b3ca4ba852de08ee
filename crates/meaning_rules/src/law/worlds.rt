//! Laws of files and modules.
ghost use Rattle.meaning_rules.specs.Worlds.Docs.{doc_at};
ghost use Rattle.meaning_rules.specs.Worlds.Keeping.{KeepsAtMostOne};
ghost use Rattle.meaning_rules.specs.Worlds.Laws.{CompilationsHaveRoot, ModulesAreReached, SettingsStandAlone, WorldsAreThere};
ghost use Rattle.meaning_rules.specs.Worlds.Modules.{OrdersAreByDepth, OrdersAreByImports, OrdersAreUnique, OrdersHaveOnce, OrdersHaveReached, RowsAreImports};
ghost use Rattle.meaning_rules.specs.Worlds.Standing.{LayoutIsUnseen, UnseenIsUnsaid, WorldsAgree};

/// A reading order has the files of a module, each once, by depth and then by the order of the
/// imports, and there is one at most.
pub fn reading_orders()
    ensures rows { RowsAreImports }
    ensures reached { OrdersHaveReached }
    ensures once { OrdersHaveOnce }
    ensures depths { OrdersAreByDepth }
    ensures imports { OrdersAreByImports }
    ensures unique { OrdersAreUnique }
{}

/// There is a world for a call whose files were read; two worlds for one call reach the same files and
/// say the same there; and blank lines and files that nobody reaches make no other world.
pub fn worlds()
    ensures there { WorldsAreThere }
    ensures same { WorldsAgree }
    ensures unseen { UnseenIsUnsaid }
    ensures layout { LayoutIsUnseen }
{}

/// The files of a module are reached, and of a kind and name it keeps one definition at most; a
/// setting counts whatever other files say, and a compilation begins with the root.
pub fn reached()
    ensures definitions { KeepsAtMostOne }
    ensures modules { ModulesAreReached }
    ensures settings { SettingsStandAlone }
    ensures root { CompilationsHaveRoot }
{}
