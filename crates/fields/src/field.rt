// The five kinds of field, each with its own parts of the file.
ghost use Rattle.fields.specs.Fields.{TagBy};

use crate::spot::File;

// The byte that a field begins with.
#[derive(Clone, Copy, PartialEq, Eq)]
pub enum Tag {
    Header = 0x01,
    Resource = 0x10,
    Route = 0x20,
    Position = 0x21,
    End = 0x7f,
}

// No kind of field begins with this byte.
#[derive(Clone, Copy)]
pub struct UnknownTag(pub u8);

impl TryFrom<u8> for Tag {
    type Error = UnknownTag;

    ghost try_from_gives = { TagBy };

    fn try_from(byte: u8) -> Result<Tag, UnknownTag> {
        match byte {
            0x01 => Ok(Tag::Header),
            0x10 => Ok(Tag::Resource),
            0x20 => Ok(Tag::Route),
            0x21 => Ok(Tag::Position),
            0x7f => Ok(Tag::End),
            _ => Err(UnknownTag(byte)),
        }
    }
}

#[derive(Clone, Copy)]
pub enum Field<'a> {
    Header {
        file: File,
        version: u8,
    },
    Resource {
        capacity: u16,
        order: u8,
        name: &'a [u8; 8],
    },
    Route {
        count: u16,
    },
    Position {
        nexts: &'a [u8],
        needs: &'a [u8],
    },
    End,
}

// What may come next in a file.
#[derive(Clone, Copy)]
pub enum Turn {
    Head,
    FirstResource,
    MoreResources,
    FirstRoute,
    MoreRoutes,
    InRoute,
}
