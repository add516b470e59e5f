//! Laws about documents, each a function without a body.

ghost use Rattle.hunk_json.specs.Laws.{HaveNoTag};

/// No byte of a document in a page is a less-than sign. So a browser reads none of it as a tag,
/// whatever names the file has, and it ends where the page ends it.
pub fn documents_in_pages_have_no_tag()
    ensures { HaveNoTag }
{}
