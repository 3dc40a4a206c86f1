//! Laws of the definitions: what is read is lawful, each lawful command is read, and lines are cut alike however the
//! bytes come.

ghost use Rattle.std.specs.Prelude.{◌≡◌, ◌≢◌, ℕ, List, [], ◌∷◌, ◌++◌, take, Ok, Err};
ghost use Rattle.lattice.specs.declared.settings.Settings.{Settings};
ghost use Rattle.lattice.specs.Settings.{IsSettings};
ghost use Rattle.camera_script.specs.declared.commands.Command.{Command};
ghost use Rattle.camera_script.specs.declared.fault.LineFault.{LineFault};
ghost use Rattle.camera_script.specs.declared.fault.LineFault.TheVariants.{UnknownCommand};
ghost use Rattle.camera_script.specs.declared.cutter.Cut.TheVariants.{Line, Long, More};
ghost use Rattle.camera_script.specs.Lines.{Cuts, Finishes, HasCut, Held, IsLongBehind, lines_of};
ghost use Rattle.camera_script.specs.Reading.{command_in, command_reading, head_reading};
ghost use Rattle.camera_script.specs.Commands.{IsAllowedCommand};
ghost use Rattle.camera_script.specs.Wording.{wording};

/// The law that what a line says is allowed: a head's settings, and the event that a command asks for.
pub fn readings_are_lawful()
    ensures heads { (line : List ℕ) (settings : Settings) → head_reading line ≡ Ok settings
        → IsSettings settings }
    ensures commands { (depth : ℕ) (line : List ℕ) (command : Command)
        → command_reading depth line ≡ Ok command → IsAllowedCommand depth command }
{}

/// The law that no lawful command is refused: the members that say it, as an object has them, read to it.
pub fn lawful_commands_are_read()
    ensures { (depth : ℕ) (command : Command) → IsAllowedCommand depth command
        → command_in depth (wording command) ≡ Ok command }
{}

/// The law that a head is never an unknown command.
pub fn heads_know_no_commands()
    ensures { (line : List ℕ) → head_reading line ≢ Err UnknownCommand }
{}

/// The law that pieces are cut as all of them together: one after another, the lines that a cutter cut from them are
/// those of the bytes that it has eaten; a line that it finds too long is the next one; and at the end all are cut.
pub fn pieces_are_cut_as_one()
    ensures more { (eaten : List ℕ) (lines : List (List ℕ)) (old new : Held) (piece : List ℕ)
        (n : ℕ) → HasCut eaten lines old → Cuts old piece n new More
        → HasCut (eaten ++ piece) lines new }
    ensures line { (eaten : List ℕ) (lines : List (List ℕ)) (old new : Held) (piece : List ℕ)
        (n : ℕ) → HasCut eaten lines old → Cuts old piece n new Line
        → HasCut (eaten ++ take n piece) (lines ++ new.line ∷ []) new }
    ensures long { (eaten : List ℕ) (lines : List (List ℕ)) (old new : Held) (piece : List ℕ)
        (n : ℕ) → HasCut eaten lines old → Cuts old piece n new Long
        → IsLongBehind (eaten ++ take n piece) lines }
    ensures no_last_line { (eaten : List ℕ) (lines : List (List ℕ)) (old new : Held)
        → HasCut eaten lines old → Finishes old new More → lines_of eaten ≡ lines }
    ensures last_line { (eaten : List ℕ) (lines : List (List ℕ)) (old new : Held)
        → HasCut eaten lines old → Finishes old new Line
        → lines_of eaten ≡ lines ++ new.line ∷ [] }
{}
