//! The numbers of metadata documents and of trigger commands.

ghost use Rattle.metadata_links.specs.declared.gathering.TheConstants as metadata_links_gathering;
ghost use Rattle.metadata_objects.specs.declared.cache.TheConstants as metadata_objects_cache;
ghost use Rattle.metadata_objects.specs.declared.host.TheConstants as metadata_objects_host;
ghost use Rattle.metadata_objects.specs.declared.lists.TheConstants as metadata_objects_lists;
ghost use Rattle.metadata_objects.specs.declared.object.TheConstants as metadata_objects_object;
ghost use Rattle.metadata_objects.specs.declared.source.TheConstants as metadata_objects_source;
ghost use Rattle.std.specs.Prelude.{◌≡◌};
ghost use Rattle.trigger_command.specs.declared.spec.TheConstants as trigger_command_spec;

/// The longest document, collection id and second, and how many objects, endpoints and nested paths one may have.
pub fn numbers_of_metadata_documents()
    ensures ccid_max { metadata_objects_cache.CCID_MAX ≡ 255 }
    ensures document_max { metadata_objects_host.DOCUMENT_MAX ≡ 8388608 }
    ensures nesting_max { metadata_objects_host.NESTING_MAX ≡ 16 }
    ensures seconds_max { metadata_objects_lists.SECONDS_MAX ≡ 9007199254740992 }
    ensures objects_max { metadata_objects_object.OBJECTS_MAX ≡ 10000 }
    ensures endpoints_max { metadata_objects_source.ENDPOINTS_MAX ≡ 16 }
{}

/// How many documents, with how many bytes together, a tree may have.
pub fn numbers_of_linked_documents()
    ensures documents_max { metadata_links_gathering.DOCUMENTS_MAX ≡ 4096 }
    ensures texts_max { metadata_links_gathering.TEXTS_MAX ≡ 8388608 }
{}

/// How many items a selection may have.
pub fn numbers_of_trigger_commands()
    ensures selection_max { trigger_command_spec.SELECTION_MAX ≡ 1000 }
{}
