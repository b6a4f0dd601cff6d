// The lines of a script by their clients.
ghost use Rattle.std.specs.Prelude.{◌≡◌, ◌<◌, ◌^◌, length};
ghost use Rattle.script_reader.specs.Named.{is_of_client, has_name, line_of_client};

use moos_post::Names;
use moos_text::{next_line, split_word};

/// The number of the first line, counted from 1, whose client is one of these names; None exactly if no line is. It
/// looks at each line's second word alone, which in a script that `read_script` takes is the client or `until`.
pub fn line_of_client(bytes: &[u8], names: &Names) -> Option<u32>
    requires { length bytes.now < 2 ^ 32 }
    ensures { result ≡ line_of_client names.now bytes.now }
{
    let mut from = 0;
    let mut number = 0;
    while from < bytes.len() {
        number += 1;
        let line = next_line(bytes, from);
        if is_of_client(names, &bytes[line.from..line.to]) {
            return Some(number);
        }
        from = line.next;
    }
    None
}

// The line of this content is one of these clients'.
fn is_of_client(names: &Names, content: &[u8]) -> bool
    ensures { result ≡ is_of_client names.now content.now }
{
    let (_, behind_stamp) = split_word(content);
    let (client, _) = split_word(behind_stamp);
    client != b"until".as_slice() && has_name(names, client)
}

// The client is one of these names.
fn has_name(names: &Names, client: &[u8]) -> bool
    ensures { result ≡ has_name names.now client.now }
{
    names.all().iter().any(|name| name.bytes() == client)
}
