use audit::AuditRefused;
use dag_answers::LookRefused;
use flood::FloodRefused;
use history_model::JournalFault;
use node_words::Full;
use script::{ScriptFault, ScriptKind};
use vox_read::VoxFault;
use vox_scene::SceneFault;
use vw_cell::Memory;
use vw_io::InputRefused;

/// Why a command did not come to its end, by the stage at which it stopped.
#[derive(Drop)]
pub enum CommandRefused<'w> {
    /// An input was not taken.
    Input(InputRefused<'w>),
    /// The inputs were taken, and their texts are refused.
    Text(TextRefused),
    /// An output was not written.
    Output(NamedOutputRefused),
}

/// Why an output was not written, in a line that names it.
#[derive(Drop)]
pub enum NamedOutputRefused {
    /// The shelf failed at it. This is the line that tells so.
    Failed(String),
    /// Want of memory, at its write or before it.
    Memory,
}

/// The first fault of the first script that has one, and the number of that script, counted from 0.
#[derive(Clone, Copy, Debug, PartialEq, Eq)]
pub struct NumberedFault {
    pub script: u16,
    pub fault: ScriptFault,
}

/// The number of a script, counted from 0, and the first line of its transcript that doesn't fit,
/// counted from 1.
#[derive(Clone, Copy, Debug, PartialEq, Eq)]
pub struct TranscriptLine {
    pub script: u16,
    pub line: u64,
}

/// Why the texts of a command's inputs, or the names of its outputs, are refused.
#[derive(Clone, Copy, Debug, PartialEq, Eq)]
pub enum TextRefused {
    /// The VOX file has this fault, which isn't want of memory.
    Vox(VoxFault),
    /// A script has this fault, which isn't want of memory.
    Script(NumberedFault),
    /// An output's name is an input's, or another output's.
    Collides,
    /// The file's scene has this fault, which isn't want of memory.
    NoScene(SceneFault),
    /// There is no such model or version, or it has no such place.
    NoPlace,
    /// This bucket of the store has no room for one more node.
    StoreFull(Full),
    /// The file of many versions breaks its first rule at this place.
    NoDag(u64),
    /// This line of the journal, counted from 1, is the first that doesn't fit, or that of the
    /// first record that breaks a rule of a legal history.
    Journal(u32),
    /// The first transcript that has a line that doesn't fit.
    Transcript(TranscriptLine),
    /// Want of memory.
    Memory,
}

impl From<VoxFault> for TextRefused {
    ghost use Rattle.std.specs.Prelude.{◌≡◌};
    ghost use Rattle.commands.specs.Refusals.{of_vox};

    ghost from_gives = { λ fault refused. refused ≡ of_vox fault };

    fn from(fault: VoxFault) -> Self {
        match fault {
            VoxFault::Memory => TextRefused::Memory,
            _ => TextRefused::Vox(fault),
        }
    }
}

impl From<NumberedFault> for TextRefused {
    ghost use Rattle.std.specs.Prelude.{◌≡◌};
    ghost use Rattle.commands.specs.Refusals.{of_fault};

    ghost from_gives = { λ at refused. refused ≡ of_fault at };

    fn from(at: NumberedFault) -> Self {
        match at.fault.kind {
            ScriptKind::Memory => TextRefused::Memory,
            _ => TextRefused::Script(at),
        }
    }
}

impl From<SceneFault> for TextRefused {
    ghost use Rattle.std.specs.Prelude.{◌≡◌};
    ghost use Rattle.commands.specs.Refusals.{of_scene};

    ghost from_gives = { λ fault refused. refused ≡ of_scene fault };

    fn from(fault: SceneFault) -> Self {
        match fault {
            SceneFault::Memory => TextRefused::Memory,
            _ => TextRefused::NoScene(fault),
        }
    }
}

impl From<FloodRefused> for TextRefused {
    ghost use Rattle.std.specs.Prelude.{◌≡◌};
    ghost use Rattle.commands.specs.Refusals.{of_flood};

    ghost from_gives = { λ fault refused. refused ≡ of_flood fault };

    fn from(refused: FloodRefused) -> Self {
        match refused {
            FloodRefused::StoreFull(full) => TextRefused::StoreFull(full),
            FloodRefused::Memory => TextRefused::Memory,
        }
    }
}

impl From<JournalFault> for TextRefused {
    ghost use Rattle.std.specs.Prelude.{◌≡◌};
    ghost use Rattle.commands.specs.Refusals.{of_journal};

    ghost from_gives = { λ fault refused. refused ≡ of_journal fault };

    fn from(fault: JournalFault) -> Self {
        match fault {
            JournalFault::Line(line) => TextRefused::Journal(line),
            JournalFault::Memory => TextRefused::Memory,
        }
    }
}

impl From<AuditRefused> for TextRefused {
    ghost use Rattle.std.specs.Prelude.{◌≡◌};
    ghost use Rattle.commands.specs.Refusals.{of_audit};

    ghost from_gives = { λ refused text. text ≡ of_audit refused };

    fn from(refused: AuditRefused) -> Self {
        match refused {
            AuditRefused::Full(full) => TextRefused::StoreFull(full),
            AuditRefused::Memory => TextRefused::Memory,
        }
    }
}

impl From<LookRefused> for TextRefused {
    ghost use Rattle.std.specs.Prelude.{◌≡◌};
    ghost use Rattle.commands.specs.Refusals.{of_look};

    ghost from_gives = { λ fault refused. refused ≡ of_look fault };

    fn from(refused: LookRefused) -> Self {
        match refused {
            LookRefused::Dag(place) => TextRefused::NoDag(place),
            LookRefused::NoPlace => TextRefused::NoPlace,
            LookRefused::Memory => TextRefused::Memory,
        }
    }
}

impl From<Memory> for TextRefused {
    ghost use Rattle.std.specs.Prelude.{◌≡◌};
    ghost use Rattle.commands.specs.declared.refusals.TextRefused.TheVariants as texts;

    ghost from_gives = { λ _ refused. refused ≡ texts.Memory };

    fn from(_: Memory) -> Self {
        TextRefused::Memory
    }
}
