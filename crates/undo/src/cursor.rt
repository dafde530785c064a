/// Where a history stands behind a record: the version that stands, and its last edit.
#[derive(Clone, Copy)]
pub struct UndoCursor {
    pub now: u32,
    pub last: u32,
}
