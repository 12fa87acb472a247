// What is lent to the calls: room for the bytes of words, and the buffer that calls write into.
use crate::fault::Fault;
use crate::words::front;

// Room for the bytes of a line's words: more than a line can name.
#[derive(Drop)]
pub struct Buffers {
    pub data: [u8; 65536],
    pub spare: [u8; 65536],
}

impl Buffers {
    pub fn new() -> Buffers {
        Buffers {
            data: [0; 65536],
            spare: [0; 65536],
        }
    }
}

// A buffer of at most 65,536 bytes.
// Kept: no heap, so the buffer is an array with the length that is lent beside it.
#[derive(Drop)]
pub struct Buffer {
    bytes: [u8; 65536],
    room: usize,
}

impl Buffer {
    pub fn new() -> Buffer {
        Buffer {
            bytes: [0; 65536],
            room: 65536,
        }
    }

    // Sets the buffer's length.
    pub fn resize(&mut self, room: u64) -> Result<(), Fault> {
        if 65536 < room {
            return Err(Fault::NoCall);
        }
        self.room = room as usize;
        Ok(())
    }

    // The buffer as it is lent to a call.
    pub fn lent(&mut self) -> &mut [u8] {
        let room = self.room.min(65536);
        &mut self.bytes[..room]
    }

    // The first n bytes of what a call wrote.
    pub fn written(&self, n: usize) -> &[u8] {
        front(&self.bytes, n)
    }
}
