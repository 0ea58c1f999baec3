//! Why metadata was not gathered.

use cdni_base::Text;
use json_read::JsonPath;
use metadata_objects::MetaFault;
use std::alloc::AllocError;
use upstream_gate::Outcome;

/// The first fault of a gathering, in the order in which the Links are followed.
#[derive(Drop)]
pub enum LinkFault {
    /// A document was asked for, and this is how that ended in place of content with status 200. It is never want of
    /// memory.
    Fetch(Outcome),
    /// A document does not read, or the whole of all documents does not. It is never want of memory.
    Meta(MetaFault),
    /// The Link at `path` of its document has an `href` that is neither an absolute `http` URL nor a path.
    BadHref { path: JsonPath },
    /// A Link names the document of the URL `href`, which holds this Link, or holds one that leads to it.
    Loop { href: Text },
    /// There are more than 4,096 documents; `count` is 4,097.
    TooMany { count: usize },
    /// The documents have `len` bytes together, more than 8,388,608.
    TooLong { len: usize },
    /// Want of memory.
    Memory,
}

impl From<AllocError> for LinkFault {
    ghost use Rattle.std.specs.Prelude.{◌≡◌};
    ghost use Rattle.metadata_links.specs.declared.fault.LinkFault.TheVariants as link_fault;

    ghost from_gives = { λ _ fault. fault ≡ link_fault.Memory };

    fn from(_error: AllocError) -> LinkFault {
        LinkFault::Memory
    }
}

impl From<MetaFault> for LinkFault {
    ghost use Rattle.std.specs.Prelude.{◌≡◌};
    ghost use Rattle.metadata_links.specs.Fault.{of_meta};

    ghost from_gives = { λ meta fault. fault ≡ of_meta meta };

    fn from(fault: MetaFault) -> LinkFault {
        match fault {
            MetaFault::Memory => LinkFault::Memory,
            MetaFault::TooLong { len } => LinkFault::Meta(MetaFault::TooLong { len }),
            MetaFault::NotJson => LinkFault::Meta(MetaFault::NotJson),
            MetaFault::Link { path } => LinkFault::Meta(MetaFault::Link { path }),
            MetaFault::Field(field) => LinkFault::Meta(MetaFault::Field(field)),
            MetaFault::TooMany { n } => LinkFault::Meta(MetaFault::TooMany { n }),
            MetaFault::TooDeep { n } => LinkFault::Meta(MetaFault::TooDeep { n }),
        }
    }
}
