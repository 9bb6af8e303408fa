// Listings of files: what a file comes to when its messages are fed to a fresh held reader.  So far an
// interval is put into bytes; the call that replays a file is still to come.
#![tactic(auto)]

mod texts;
