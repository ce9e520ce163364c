// What is true of pages by themselves.
ghost use Rattle.hc_bucket.specs.Page.{HoldsOneList};

/// Two lists of entries never share the bytes of a page. The function does nothing: its contract is the law.
pub fn one_list_a_page()
    ensures { HoldsOneList }
{}
