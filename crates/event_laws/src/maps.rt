//! The law of how events change the level map.

ghost use Rattle.event_laws.specs.Laws.{EditsKeepLevels, EventsMoveViewpoints, LowestHaveNoRim, NobodyLooks, NoneIsSplit, RootIsTheLeaf, UndosKeepLevels, WantedFromViewpoints};

/// The law that the level map is that of all viewpoints, each where the last event that names it left it. A node is
/// wanted split where one of them wants it. So an edit and an undo leave the map as it is, and a camera or an away
/// moves the viewpoint that it names alone. Before any event there is no viewpoint and no node is split, so that the
/// root is the one leaf. A node of level 0 has no finer neighbour.
pub fn levels_follow_the_viewpoints()
    ensures wanted { WantedFromViewpoints }
    ensures edit { EditsKeepLevels }
    ensures undo { UndosKeepLevels }
    ensures moves { EventsMoveViewpoints }
    ensures nobody { NobodyLooks }
    ensures none { NoneIsSplit }
    ensures root { RootIsTheLeaf }
    ensures lowest { LowestHaveNoRim }
{}
