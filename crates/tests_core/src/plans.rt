use node_words::Plan;
use std::alloc::Global;
use std::test::Fail;
use vox_read::Models;
use vw_cell::Side;

/// The plan of a world of this side, with so many buckets of so many slots on each level.
pub fn plan_of(side: u32, buckets: u16, cap: u16) -> Result<Plan, Fail> {
    let side = Side::new(side).ok_or("a side")?;
    Ok(Plan::even(side, buckets, cap).ok_or("a plan")?)
}

/// No models at all.
pub fn no_models(alloc: Global) -> Models {
    Models {
        list: Vec::new(alloc),
    }
}
