use dag_answers::SpelledQuestion;
use node_words::Plan;
use std::marker::Model;

/// What the words after the program's name ask for. Contracts see the names as their bytes.
#[derive(Drop)]
pub enum Request<'w> {
    /// To count the cells of this file.
    Count(FileName<'w>),
    /// To run scripts.
    Run(Order<'w>),
    /// To run the load of this number.
    Demo(u32),
    /// To flood a model from a place.
    Flood(FloodOrder<'w>),
    /// To place the models of a scene.
    Scene(SceneOrder<'w>),
    /// To write the versions of a journal as one file.
    Dag(DagOrder<'w>),
    /// To ask a version of a file of many.
    Look(LookOrder<'w>),
    /// To audit a run.
    Audit(AuditOrder<'w>),
}

/// The name of a file. Contracts see its bytes.
#[derive(Drop)]
pub struct FileName<'w> {
    pub text: &'w str,
}

impl<'w> Model for FileName<'w> {
    ghost use Rattle.std.specs.Prelude.{ℕ, List};

    ghost Value = { List ℕ };

    ghost view = { λ name. name.text.now };
}

/// What a run is asked for: how the world's store is laid out, whether the world's cells have
/// tints, how many last versions alone are held, or 0 for all, the names of the journal and of the
/// report where they are wanted, and those of the VOX file and of the scripts, of which the first
/// is that of session 0.
#[derive(Drop)]
pub struct Order<'w> {
    pub plan: Plan,
    pub tint: bool,
    pub keep: u32,
    pub journal: Option<&'w str>,
    pub report: Option<&'w str>,
    pub file: &'w str,
    pub scripts: &'w [&'w str],
}

impl<'w> Model for Order<'w> {
    ghost use Rattle.std.specs.Prelude.{map};
    ghost use Rattle.std.specs.Option.{option_map};
    ghost use Rattle.requests.specs.Orders.{Asked};

    ghost Value = { Asked };

    ghost view = { λ order. record {
      plan = order.plan;
      tint = order.tint;
      keep = order.keep;
      journal = option_map (λ name. name.now) order.journal;
      report = option_map (λ name. name.now) order.report;
      file = order.file.now;
      scripts = map (λ name. name.now) order.scripts.now;
    } };
}

/// What a flood is asked for: the VOX file, the number of its model, the place from which is
/// flooded, and the name of the region's file.
#[derive(Drop)]
pub struct FloodOrder<'w> {
    pub file: &'w str,
    pub model: u32,
    pub x: u32,
    pub y: u32,
    pub z: u32,
    pub out: &'w str,
}

impl<'w> Model for FloodOrder<'w> {
    ghost use Rattle.requests.specs.Orders.{FloodAsked};

    ghost Value = { FloodAsked };

    ghost view = { λ order. record {
      file = order.file.now;
      model = order.model;
      x = order.x;
      y = order.y;
      z = order.z;
      out = order.out.now;
    } };
}

/// What is asked of a scene: the VOX file, and the names of the file of the turned models and of
/// the script of their stamps.
#[derive(Drop)]
pub struct SceneOrder<'w> {
    pub file: &'w str,
    pub out: &'w str,
    pub script: &'w str,
}

impl<'w> Model for SceneOrder<'w> {
    ghost use Rattle.requests.specs.Orders.{SceneAsked};

    ghost Value = { SceneAsked };

    ghost view = { λ order. record {
      file = order.file.now;
      out = order.out.now;
      script = order.script.now;
    } };
}

/// What is asked for the file of the versions of a journal: the names of the VOX file, of the
/// journal and of that file.
#[derive(Drop)]
pub struct DagOrder<'w> {
    pub file: &'w str,
    pub journal: &'w str,
    pub out: &'w str,
}

impl<'w> Model for DagOrder<'w> {
    ghost use Rattle.requests.specs.Orders.{DagAsked};

    ghost Value = { DagAsked };

    ghost view = { λ order. record {
      file = order.file.now;
      journal = order.journal.now;
      out = order.out.now;
    } };
}

/// A number of buckets on each level, from 1 to 4,096. Contracts see the number.
#[derive(Clone, Copy, Debug, PartialEq, Eq)]
pub struct Buckets {
    number: u16,
}

impl Model for Buckets {
    ghost use Rattle.std.specs.Prelude.{ℕ, IsTrue};
    ghost use Rattle.node_words.specs.Plans.{is_number_of_buckets};

    ghost Value = { ℕ };

    ghost view = { λ b. b.number };

    ghost invariant = { λ b. IsTrue (is_number_of_buckets b.number) };

    ghost inverse = { λ n. record { number = n } };
}

impl Buckets {
    ghost use Rattle.std.specs.Prelude.{◌≡◌, IsTrue};
    ghost use Rattle.node_words.specs.Plans.{is_number_of_buckets};
    ghost use Rattle.requests.specs.Orders.{allowed_buckets};
    /// So many buckets. `None` where that isn't 1 to 4,096.
    pub fn new(number: u32) -> Option<Buckets>
        ensures { result ≡ allowed_buckets number }
    {
        if number < 1 || number > 4096 {
            return None;
        }
        Some(Buckets {
            number: number as u16,
        })
    }

    /// The number.
    pub fn number(self) -> u16
        ensures is { result ≡ self }
        ensures known { IsTrue (is_number_of_buckets result) }
    {
        self.number
    }
}

/// What an audit is asked for: the number of buckets by which a full one is judged, where it isn't
/// the usual one of each level, how many last versions alone were held, or 0 for all, and the names
/// of the VOX file, the journal and the scripts, of which the first is that of session 0.
#[derive(Drop)]
pub struct AuditOrder<'w> {
    pub buckets: Option<Buckets>,
    pub keep: u32,
    pub file: &'w str,
    pub journal: &'w str,
    pub scripts: &'w [String],
}

impl<'w> Model for AuditOrder<'w> {
    ghost use Rattle.std.specs.Prelude.{map, string_bytes};
    ghost use Rattle.requests.specs.Orders.{AuditAsked};

    ghost Value = { AuditAsked };

    ghost view = { λ order. record {
      buckets = order.buckets;
      keep = order.keep;
      file = order.file.now;
      journal = order.journal.now;
      scripts = map string_bytes order.scripts.now;
    } };
}

/// What is asked of a file of many versions: its name, the number of a version, and a question.
#[derive(Drop)]
pub struct LookOrder<'w> {
    pub dag: &'w str,
    pub version: u32,
    pub question: SpelledQuestion,
}

impl<'w> Model for LookOrder<'w> {
    ghost use Rattle.dag_answers.specs.Questions.{question_spelled};
    ghost use Rattle.requests.specs.Orders.{LookAsked};

    ghost Value = { LookAsked };

    ghost view = { λ order. record {
      dag = order.dag.now;
      version = order.version;
      question = question_spelled order.question;
    } };
}
