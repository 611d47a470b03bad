// The call that a line asks for.
ghost use Rattle.std.specs.Prelude.{◌≤◌, length};

// A run has its most steps. The last four have their bytes: a page, a response, a value, a service ID.
#[derive(Drop)]
pub enum Call<'a> {
    Nothing,
    Create,
    Step,
    End,
    Run(usize),
    Load(&'a [u8]),
    Respond(&'a [u8]),
    Write(u8, &'a [u8]),
    Read(u8, &'a [u8]),
}

// The bytes that a word says, in the buffer.
fn bytes_of<'a>(word: &[u8], buffer: &'a mut [u8; 32768]) -> Option<&'a [u8]>
    requires { length word.now ≤ 65536 }
{
    if !lines::is_bytes(word) {
        return None;
    }
    let n = lines::unhex(word, buffer);
    Some(&buffer[..n])
}

// A variable's number, and bytes.
fn numbered<'a>(words: &[u8], buffer: &'a mut [u8; 32768]) -> Option<(u8, &'a [u8])>
    requires { length words.now ≤ 65536 }
{
    let end = lines::find(words, 0, b' ')?;
    let number = lines::number_of(&words[..end])?;
    Some((number, bytes_of(&words[end + 1..], buffer)?))
}

// A variable's number, and a service ID that may be left out.
fn read<'a>(words: &[u8], buffer: &'a mut [u8; 32768]) -> Option<Call<'a>>
    requires { length words.now ≤ 65536 }
{
    if let Some(number) = lines::number_of(words) {
        return Some(Call::Read(number, &[]));
    }
    let (number, service) = numbered(words, buffer)?;
    Some(Call::Read(number, service))
}

// A line of one word.
fn of_word(name: &[u8]) -> Option<Call<'static>> {
    match name {
        b"step" => Some(Call::Step),
        b"end" => Some(Call::End),
        b"create" => Some(Call::Create),
        _ => None,
    }
}

// A line of more words: the first, and what stands after its blank.
fn of_words<'a>(name: &[u8], words: &[u8], buffer: &'a mut [u8; 32768]) -> Option<Call<'a>>
    requires { length words.now ≤ 65536 }
{
    match name {
        b"run" => Some(Call::Run(lines::count_of(words)?)),
        b"env" => {
            let (number, value) = numbered(words, buffer)?;
            Some(Call::Write(number, value))
        }
        b"read" => read(words, buffer),
        b"load" => Some(Call::Load(bytes_of(words, buffer)?)),
        b"respond" => Some(Call::Respond(bytes_of(words, buffer)?)),
        _ => None,
    }
}

pub fn of_line<'a>(line: &[u8], buffer: &'a mut [u8; 32768]) -> Option<Call<'a>>
    requires { length line.now ≤ 65536 }
{
    if line.is_empty() || line[0] == b'#' {
        return Some(Call::Nothing);
    }
    let Some(end) = lines::find(line, 0, b' ') else {
        return of_word(line);
    };
    of_words(&line[..end], &line[end + 1..], buffer)
}
