// An exchange as bytes.
ghost use Rattle.std.specs.Prelude.{◌≡◌, ◌≤◌, length};
ghost use Rattle.std.specs.Simd.{first_chunks};
ghost use Rattle.model.specs.Limits.{exchange_limit, transfer_size};
ghost use Rattle.transfers.specs.View.{transfer_count, list_size};

use limits::TRANSFER_SIZE;

// The bytes of an exchange that question 12 passes.
#[derive(Clone, Copy)]
pub(crate) struct Exchange<'a> {
    pub(crate) bytes: &'a [u8],
    ghost short: { length bytes.now ≤ exchange_limit },
}

impl<'a> Exchange<'a> {
    // How many transfers it has.
    pub(crate) fn len(self) -> usize
        ensures { (result ≡ transfer_count self.entry.bytes.now) × (result ≤ list_size) }
    {
        self.bytes.len() / TRANSFER_SIZE
    }

    // The three bytes of each of them.
    pub(crate) fn triples(self) -> &'a [[u8; TRANSFER_SIZE]]
        ensures chunks { result.now ≡ first_chunks transfer_size (transfer_count self.entry.bytes.now) self.entry.bytes.now }
        ensures count { (length result.now ≡ transfer_count self.entry.bytes.now) × (length result.now ≤ list_size) }
    {
        let (triples, _) = self.bytes.as_chunks::<TRANSFER_SIZE>();
        triples
    }
}
