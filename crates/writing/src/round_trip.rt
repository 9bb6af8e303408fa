// The round trip from messages to lines and back.
ghost use Rattle.writing.specs.Writing.{ReadsBack, ViewsReadBack};

// Messages that are written as lines, one after the other, are a file that says these messages in
// their order.  It computes nothing: the contract is the theorem.
pub fn reads_back()
    ensures meant { ReadsBack }
    ensures viewed { ViewsReadBack }
{}
