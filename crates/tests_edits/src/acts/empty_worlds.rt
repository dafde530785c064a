use history_model::{Question, Way};
use node_words::Plan;
use one_store::OneStore;
use std::alloc::Global;
use std::test::Fail;
use store_run::tell;
use transcript::Answer;
use vw_cell::{Boxed, Cell, Side};

// What the empty world of this side answers to a question of each kind.
fn told(alloc: Global, side: Side, b: Boxed, way: Way) -> Result<[Answer; 6], Fail> {
    if !b.at.is_in_world(side) {
        return Err("a cell of the world".into());
    }
    let b = Boxed::new(b.at, b.size, side).ok_or("a box of the world")?;
    let mut store = OneStore::begin(alloc, &Plan::usual(side))?;
    Ok([
        tell(&mut store, None, side, Question::Get(b.at)),
        tell(&mut store, None, side, Question::Colour(b.at)),
        tell(&mut store, None, side, Question::Count(b)),
        tell(&mut store, None, side, Question::Bounds),
        tell(&mut store, None, side, Question::Faces(b)),
        tell(&mut store, None, side, Question::Ray(b.at, way)),
    ])
}

#[test]
fn the_empty_world_is_told_where_there_is_no_root(rt: HostRuntime) -> Result<(), Fail> {
    let side = Side::new(8).ok_or("a side")?;
    let way = Way::new(1, 2, 0).ok_or("a way")?;
    let at = Cell { x: 0, y: 0, z: 0 };
    let size = Cell { x: 8, y: 8, z: 8 };
    let told = told(rt.alloc(), side, Boxed { at, size }, way)?;
    let want = [
        Answer::Is(false),
        Answer::Colour(0),
        Answer::Count(0),
        Answer::Extent(None),
        Answer::Faces(0),
        Answer::Hit(None),
    ];
    assert_eq!(rt; told.as_slice(), want.as_slice());
    Ok(())
}
