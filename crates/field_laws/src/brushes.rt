//! What holds of every brush: its root, where it reads, what it leaves alone, and the range of samples.

ghost use Rattle.std.specs.Prelude.{◌≡◌, ℕ, ◌+◌, ◌*◌, ◌<◌, ◌≤◌, List, ℤ, pos, neg_ℤ, ◌*ℤ◌, ◌≤ℤ◌};
ghost use Rattle.std.specs.Int.{int_div_euclid};
ghost use Rattle.lattice.specs.declared.point.Point.{Point};
ghost use Rattle.lattice.specs.declared.settings.Settings.{Settings};
ghost use Rattle.terrain.specs.declared.brush.Brush.{Brush};
ghost use Rattle.terrain.specs.declared.brush.TheConstants.{MAX_SAMPLE};
ghost use Rattle.terrain.specs.declared.event.Event.{Event};
ghost use Rattle.terrain.specs.Samples.{Field, IsSample};
ghost use Rattle.terrain.specs.Brushes.{floor_root, after_brush};
ghost use Rattle.terrain.specs.History.{field_of, sample};
ghost use Rattle.field_laws.specs.Laws.{BrushesKeepSamples, BrushesReadTheWorld, EditsInForceAreLawful, EditsInForceGrow, FieldsFollowEdits, HistoriesGrow};

/// The root of a number meets both bounds: its square is at most the number, and the next square is above it.
pub fn root_meets_both_bounds()
    ensures low { (n : ℕ) → floor_root n * floor_root n ≤ n }
    ensures high { (n : ℕ) → n < (floor_root n + 1) * (floor_root n + 1) }
    ensures only { (n r : ℕ) → r * r ≤ n → n < (r + 1) * (r + 1) → r ≡ floor_root n }
{}

/// What a brush makes of a point of the world depends on samples at points of the world alone.
pub fn brushes_read_only_the_world()
    ensures { BrushesReadTheWorld }
{}

/// A lawful brush changes no sample off its region.
pub fn brushes_keep_samples_off_their_region()
    ensures { BrushesKeepSamples }
{}

/// Every sample after a history is a number from -127 to 127, and so is an eighth of a sum of eight such numbers.
pub fn samples_stay_in_range()
    ensures eighth { (n : ℤ) → neg_ℤ (pos 8 *ℤ MAX_SAMPLE) ≤ℤ n → n ≤ℤ (pos 8 *ℤ MAX_SAMPLE)
        → IsSample (int_div_euclid n (pos 8)) }
    ensures brush { (depth : ℕ) (brush : Brush) (s : Field) → ((p : Point) → IsSample (s p))
        → (p : Point) → IsSample (after_brush depth brush s p) }
    ensures edits { (depth : ℕ) (brushes : List Brush) (p : Point)
        → IsSample (field_of depth brushes p) }
    ensures history { (settings : Settings) (events : List Event) (p : Point)
        → IsSample (sample settings events p) }
{}

/// One more event acts on the edits in force after those before it: an edit is one more of them, an undo takes the
/// newest of them away, and a camera or an away changes none.
pub fn histories_grow_by_events()
    ensures { HistoriesGrow }
{}

/// The field after a history is that of its edits in force, whatever else happened: two histories with the same edits
/// in force have the same field. They grow by events, and are lawful where all events are.
pub fn fields_follow_the_edits_in_force()
    ensures field { FieldsFollowEdits }
    ensures grow { EditsInForceGrow }
    ensures lawful { EditsInForceAreLawful }
{}
