ghost use Rattle.std.specs.Prelude.{◌≡◌, ◌≤◌, ◌<◌, ◌^◌, ◌++◌, List, length, None, Some, Option, IfOk, IfErr, MatchResult, MatchOption};
ghost use Rattle.vox_read.specs.Contents.{Content};
ghost use Rattle.vox_read.specs.Files.{HasModels};
ghost use Rattle.vox_scene.specs.declared.nodes.Node.{Node};
ghost use Rattle.vox_scene.specs.Faults.{SaysNodeRule};
ghost use Rattle.vox_scene.specs.Nodes.{kind_fault};
ghost use Rattle.vox_scene.specs.Reading.{nodes_in, chunk_fault, AreNodes, FindsNodes, RefusesNodes};

use crate::faults::SceneFault;
use crate::nodes::{Kind, Node, is_node, read_node};
use std::alloc::Global;
use std::collections::BTreeMap;
use vox_chunk::{Chunk, Chunks};

/// The nodes of a file, each found by its id.
#[derive(Drop)]
pub struct Nodes<'f> {
    pub(crate) by_id: BTreeMap<u32, Kind<'f>>,
    pub(crate) is_any: bool,
}

// The nodes of a file whose models can be read, or the first fault of a node.
pub(crate) fn read_nodes<'f>(alloc: Global, bytes: &'f [u8]) -> Result<Nodes<'f>, SceneFault>
    requires short { length bytes.now ≤ 2 ^ 28 }
    requires accepted { (models : List Content) × HasModels bytes.now models }
    ensures read { IfOk result
        (λ found. (nodes : List Node) × AreNodes bytes.now nodes × FindsNodes nodes found) }
    ensures refused { IfErr result (λ fault. RefusesNodes fault bytes.now) }
{
    let Ok(chunks) = Chunks::new(bytes) else {
        unreachable!()
    };
    let mut chunks = chunks;
    let mut nodes = Nodes {
        by_id: BTreeMap::new(alloc),
        is_any: false,
    };
    while let Some(next) = chunks.next() {
        match next {
            Ok(chunk) => {
                if let Err(fault) = take_chunk(&chunk, &mut nodes) {
                    return Err(fault);
                }
            }
            Err(_) => unreachable!(),
        }
    }
    Ok(nodes)
}

// Takes the node of a chunk, where it has one.
fn take_chunk<'f>(chunk: &Chunk<'f>, nodes: &mut Nodes<'f>) -> Result<(), SceneFault>
    ensures { (before : List Node) → FindsNodes before nodes.old → MatchResult result
        (λ _. (chunk_fault before chunk.now.id chunk.now.content.now chunk.now.at ≡ None)
        × FindsNodes (before ++ nodes_in chunk.now.id chunk.now.content.now) nodes.new)
        (λ fault. SaysNodeRule fault
        (chunk_fault before chunk.now.id chunk.now.content.now chunk.now.at)) }
{
    if !is_node(chunk.id) {
        return Ok(());
    }
    let Some(node) = read_node(chunk.id, chunk.content) else {
        return Err(SceneFault::ShortNode(chunk.at));
    };
    let Node { id, kind } = node;
    if nodes.by_id.contains_key(&id) {
        return Err(SceneFault::TwoNodes(chunk.at));
    }
    if let Some(fault) = kind_fault(chunk.at, &kind) {
        return Err(fault);
    }
    nodes.by_id.insert(id, kind)?;
    nodes.is_any = true;
    Ok(())
}

// The rule that a node breaks by what it does.
fn kind_fault(at: u32, kind: &Kind<'_>) -> Option<SceneFault>
    ensures { result ≡ kind_fault at kind.now }
{
    match kind {
        Kind::Moves { axis_map: None, .. } => Some(SceneFault::BadRotation(at)),
        Kind::Moves { shift: None, .. } => Some(SceneFault::BadTranslation(at)),
        _ => None,
    }
}
