//! Samples of the worked examples, and what a brush leaves alone.

ghost use Rattle.std.specs.Prelude.{◌≡◌, pos, negsuc, []};
ghost use Rattle.terrain.specs.History.{sample};
ghost use Rattle.terrain_examples.specs.Examples.{point, still, single_point, filled_and_carved, filled_and_smoothed, touching_balls, carved_whole, mixed, mixed_and_smoothed, single_ball};

/// The samples round a single filled point depend on the Chebyshev distance.
pub fn samples_of_single_point()
    ensures at_it { sample (still 0) single_point (point 8 8 8) ≡ negsuc 7 }
    ensures beside_it { sample (still 0) single_point (point 8 9 8) ≡ pos 8 }
    ensures across_its_corner { sample (still 0) single_point (point 9 7 7) ≡ pos 8 }
    ensures at_distance_2 { sample (still 0) single_point (point 10 8 7) ≡ pos 24 }
    ensures at_distance_8 { sample (still 0) single_point (point 16 8 8) ≡ pos 120 }
    ensures at_the_corner { sample (still 0) single_point (point 0 0 0) ≡ pos 120 }
    ensures before_it { sample (still 0) [] (point 8 8 8) ≡ pos 127 }
{}

/// Carving a filled point empties it, and leaves its distance from the border of the box.
pub fn samples_of_carved_point()
    ensures carved { sample (still 0) filled_and_carved (point 8 8 8) ≡ pos 8 }
    ensures carved_whole { sample (still 2) carved_whole (point 32 32 32) ≡ pos 127 }
{}

/// Smoothing takes two eighths of a sample and one of each of its six neighbours.
pub fn samples_of_smoothed_point()
    ensures smoothed { sample (still 0) filled_and_smoothed (point 8 8 8) ≡ pos 4 }
    ensures left_alone { sample (still 0) filled_and_smoothed (point 8 8 9) ≡ pos 8 }
{}

/// A ball's samples depend on the root of the square distance; a sample of 0 is empty.
pub fn samples_of_balls()
    ensures first_centre { sample (still 0) touching_balls (point 8 8 8) ≡ negsuc 15 }
    ensures second_centre { sample (still 0) touching_balls (point 9 9 8) ≡ negsuc 15 }
    ensures filled_between { sample (still 0) touching_balls (point 8 9 8) ≡ negsuc 7 }
    ensures where_they_touch { sample (still 0) touching_balls (point 9 8 8) ≡ pos 0 }
    ensures centre { sample (still 1) single_ball (point 30 20 10) ≡ negsuc 111 }
    ensures on_it { sample (still 1) single_ball (point 30 20 17) ≡ pos 0 }
    ensures above_it { sample (still 1) single_ball (point 30 20 18) ≡ pos 16 }
    ensures inside_it { sample (still 1) single_ball (point 27 16 13) ≡ negsuc 18 }
    ensures just_inside_it { sample (still 1) single_ball (point 32 25 14) ≡ negsuc 4 }
    ensures outside_it { sample (still 1) single_ball (point 25 15 5) ≡ pos 26 }
{}

/// Three shapes in one history, at points that tell the axes apart.
pub fn samples_of_mixed_edits()
    ensures carved { sample (still 0) mixed (point 5 8 10) ≡ pos 48 }
    ensures low_corner { sample (still 0) mixed (point 3 5 7) ≡ negsuc 7 }
    ensures high_corner { sample (still 0) mixed (point 6 9 12) ≡ pos 9 }
    ensures beside { sample (still 0) mixed (point 2 5 7) ≡ pos 8 }
    ensures on_the_ground { sample (still 0) mixed (point 5 8 4) ≡ negsuc 7 }
    ensures over_the_ground { sample (still 0) mixed (point 5 8 5) ≡ pos 8 }
    ensures under_the_ground { sample (still 0) mixed (point 0 0 0) ≡ negsuc 71 }
    ensures far { sample (still 0) mixed (point 16 16 16) ≡ pos 127 }
    ensures above { sample (still 0) mixed (point 1 1 9) ≡ pos 56 }
{}

/// The same, smoothed: at the world's corners a neighbour is clamped to the world.
pub fn samples_of_smoothed_edits()
    ensures low_corner { sample (still 0) mixed_and_smoothed (point 0 0 0) ≡ negsuc 69 }
    ensures other_corner { sample (still 0) mixed_and_smoothed (point 16 0 0) ≡ negsuc 69 }
    ensures last_point { sample (still 0) mixed_and_smoothed (point 16 9 11) ≡ pos 104 }
    ensures after_it { sample (still 0) mixed_and_smoothed (point 16 9 12) ≡ pos 120 }
    ensures carved { sample (still 0) mixed_and_smoothed (point 5 8 10) ≡ pos 36 }
    ensures rounded_down { sample (still 0) mixed_and_smoothed (point 3 5 7) ≡ negsuc 1 }
    ensures left_alone { sample (still 0) mixed_and_smoothed (point 16 10 5) ≡ pos 8 }
{}
