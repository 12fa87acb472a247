// How records are spread over messages, by their lengths.
ghost use Rattle.std.specs.Prelude.{◌≤◌, length};
ghost use Rattle.reply.specs.Ready.{Small, First, Planned};

// The records of a message: how many it takes, and its size with them.
#[derive(Clone, Copy)]
pub(crate) struct Group {
    pub(crate) taken: usize,
    pub(crate) size: usize,
}

// All messages: how many, and their size together.
#[derive(Clone, Copy)]
pub(crate) struct Spread {
    pub(crate) count: usize,
    pub(crate) size: usize,
}

// The records that the next message takes, where it has `head` bytes without them.
pub(crate) fn first(head: usize, lens: &[usize]) -> Group
    requires { (head ≤ 64) × Small lens.now }
    ensures { First head lens.now result }
{
    let mut size = head;
    for (i, len) in lens.iter().enumerate() {
        if 32 <= i || 1280 < size + (4 + *len) {
            return Group { taken: i, size };
        }
        size += 4 + *len;
    }
    Group {
        taken: lens.len(),
        size,
    }
}

// The FoundNodes messages for records of these lengths: one where there are none.
pub(crate) fn plan(lens: &[usize]) -> Spread
    requires { (length lens.now ≤ 129) × Small lens.now }
    ensures { Planned lens.now result }
{
    let group = first(6, lens);
    let mut from = group.taken;
    let mut count = 1;
    let mut size = group.size;
    // Kept: no plainer, a turn passes as many records as its message takes.
    while from < lens.len() {
        let next = first(6, &lens[from..]);
        from += next.taken;
        count += 1;
        size += next.size;
    }
    Spread { count, size }
}
