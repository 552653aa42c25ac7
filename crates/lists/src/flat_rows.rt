// Rows of one width in a flat list.
ghost use Rattle.std.specs.Prelude.{◌≡◌, [], ◌*◌, ◌≤◌, ◌<◌, length, slice_index_or};
ghost use Rattle.lists.specs.Rows.{rows};

// Rows of one width, one after the other in a flat list, which may go on past them.
#[derive(Clone, Copy)]
pub struct FlatRows<'a> {
    pub width: usize,
    pub count: usize,
    pub list: &'a [u32],
    ghost inside: { width * count ≤ length list.now },
}

impl FlatRows<'_> {
    // Row i.
    pub fn row(&self, i: usize) -> &[u32]
        requires { i < self.now.count }
        ensures { result.now ≡ slice_index_or (rows self.now.width self.now.count self.now.list.now) i [] }
    {
        let from = self.width * i;
        &self.list[from..from + self.width]
    }
}
