//! The keys of fields.
ghost use Rattle.fields.specs.Keys.{ReadsKey};

/// The key of a field.
#[derive(Clone, Copy, PartialEq, Eq, Debug)]
pub enum Tag {
    Op,
    Mode,
    Sum,
    Mxr,
    Va,
    Asid,
    Data,
    Pa,
}

impl Tag {
    /// The tag of a key.
    pub(crate) fn read(key: &[u8]) -> Option<Tag>
        ensures { ReadsKey key.now result }
    {
        match key {
            b"op" => Some(Tag::Op),
            b"mode" => Some(Tag::Mode),
            b"sum" => Some(Tag::Sum),
            b"mxr" => Some(Tag::Mxr),
            b"va" => Some(Tag::Va),
            b"asid" => Some(Tag::Asid),
            b"data" => Some(Tag::Data),
            b"pa" => Some(Tag::Pa),
            _ => None,
        }
    }
}
