// One sender, its posts and any number of readers, by the books that they come to: what each call
// makes of them, and the law that they keep.  The calls themselves are still to come.
#![tactic(auto)]

mod law;

pub use law::law_of_books;
