//! The forms of JSON documents: what is escaped in each, and contents in base64.

use super::asserts::holds;
use super::runs::{self, Devices, ENOUGH, Text, WHOLE, growths, is_taken};
use hunk_json::JsonForm;
use hunk_test_support::load_words::THREE_HUNKS;
use std::alloc::Global;
use std::process::Abort;
use std::test::Fail;

/// All forms. They tell the same of a file without hunks.
const FORMS: [JsonForm; 3] = [JsonForm::Plain, JsonForm::WithContent, JsonForm::InPage];

/// The document of these longwords in this form is this text and its end, however they are read.
fn is_written(
    rt: &impl Abort,
    alloc: Global,
    form: JsonForm,
    words: &[u32],
    text: &str,
) -> Result<(), Fail> {
    let line = format!(in alloc; "{text}\n")?;
    runs::is_written(rt, alloc, Text::Form(form), words, line.as_bytes())
}

/// Units without hunks, and what stands for the characters of their names: those that a terminal
/// obeys, the characters beside them, and the end of a script.
static NAMES: [(&[u32], &str); 2] = [
    (
        &[0x3E7, 4, 0x617FC285, 0xE280AED8, 0x9CE281A6, 0xC29F417E],
        "a\\u007f\\u0085\\u202e\\u061c\\u2066\\u009fA~",
    ),
    (
        &[0x3E7, 4, 0xC2A0E280, 0x8DE28090, 0xE280AFE2, 0x81AAD89D],
        "\u{a0}\u{200d}\u{2010}\u{202f}\u{206a}\u{61d}",
    ),
];

#[test]
fn escapes_what_a_terminal_obeys(rt: HostRuntime) -> Result<(), Fail> {
    for (words, name) in &NAMES {
        let text = format!(in rt.alloc();
            "{{\"kind\":\"object file\",\"units\":[{{\"hunks\":[],\"name\":\"{name}\"}}]}}"
        )?;
        for form in FORMS {
            is_written(&rt, rt.alloc(), form, words, text.as_str())?;
        }
    }
    Ok(())
}

/// A unit whose name ends a script, and what stands for the name outside a page and in it.
static TAG: [u32; 5] = [0x3E7, 3, 0x3C2F7363, 0x72697074, 0x3E000000];

#[test]
fn escapes_what_begins_a_tag_in_a_page(rt: HostRuntime) -> Result<(), Fail> {
    for (form, name) in [
        (JsonForm::Plain, "</script>"),
        (JsonForm::WithContent, "</script>"),
        (JsonForm::InPage, "\\u003c/script>"),
    ] {
        let text = format!(in rt.alloc();
            "{{\"kind\":\"object file\",\"units\":[{{\"hunks\":[],\"name\":\"{name}\"}}]}}"
        )?;
        is_written(&rt, rt.alloc(), form, &TAG, text.as_str())?;
    }
    Ok(())
}

/// The contents of hunks, and these in base64: of every length up to four longwords, and of more than
/// is encoded at once.
static CONTENTS: [(&[u32], &str); 6] = [
    (&[], ""),
    (&[0xFB020910], "+wIJEA=="),
    (&[0xFB020910, 0x171E252C], "+wIJEBceJSw="),
    (&[0xFB020910, 0x171E252C, 0x333A4148], "+wIJEBceJSwzOkFI"),
    (
        &[0xFB020910, 0x171E252C, 0x333A4148, 0x4F565D64],
        "+wIJEBceJSwzOkFIT1ZdZA==",
    ),
    (
        &[
            0xFB020910, 0x171E252C, 0x333A4148, 0x4F565D64, 0x6B727980, 0x878E959C, 0xA3AAB1B8,
            0xBFC6CDD4, 0xDBE2E9F0, 0xF7FE050C, 0x131A2128, 0x2F363D44, 0x4B525960, 0x676E757C,
            0x838A9198, 0x9FA6ADB4, 0xBBC2C9D0, 0xD7DEE5EC, 0xF3FA0108, 0x0F161D24, 0x2B323940,
            0x474E555C, 0x636A7178, 0x7F868D94, 0x9BA2A9B0, 0xB7BEC5CC, 0xD3DAE1E8, 0xEFF6FD04,
            0x0B121920, 0x272E353C, 0x434A5158, 0x5F666D74, 0x7B828990, 0x979EA5AC, 0xB3BAC1C8,
            0xCFD6DDE4, 0xEBF2F900, 0x070E151C, 0x232A3138, 0x3F464D54, 0x5B626970, 0x777E858C,
            0x939AA1A8, 0xAFB6BDC4, 0xCBD2D9E0, 0xE7EEF5FC, 0x030A1118, 0x1F262D34, 0x3B424950,
        ],
        "+wIJEBceJSwzOkFIT1ZdZGtyeYCHjpWco6qxuL/GzdTb4unw9/4FDBMaISgvNj1ES1JZYGdudXyD\
         ipGYn6attLvCydDX3uXs8/oBCA8WHSQrMjlAR05VXGNqcXh/ho2Um6KpsLe+xczT2uHo7/b9BAsS\
         GSAnLjU8Q0pRWF9mbXR7gomQl56lrLO6wcjP1t3k6/L5AAcOFRwjKjE4P0ZNVFtiaXB3foWMk5qh\
         qK+2vcTL0tng5+71/AMKERgfJi00O0JJUA==",
    ),
];

/// An object file of one hunk with this content.
fn object_words(alloc: Global, content: &[u32]) -> Result<Vec<u32>, Fail> {
    let size = u32::try_from(content.len()).ok().ok_or("too long")?;
    let mut words = vec![in alloc; 0x3E7, 0, 0x3EA, size]?;
    words.extend_from_slice(content)?;
    words.push(0x3F2)?;
    Ok(words)
}

/// What is told of it.
fn object_text(alloc: Global, size: usize, content: &str) -> Result<String, Fail> {
    Ok(format!(in alloc;
        "{{\"kind\":\"object file\",\"units\":[{{\"hunks\":[\
         {{\"debugs\":[],\"definitions\":[],\"kind\":\"data\",\"memory\":\"any\",\"name\":\"\",\
         \"sites\":[],\"size\":{size}{content},\"symbols\":[]}}],\"name\":\"\"}}]}}"
    )?)
}

/// A load file of one hunk with this content, and one more longword of memory.
fn load_words(alloc: Global, content: &[u32]) -> Result<Vec<u32>, Fail> {
    let stored = u32::try_from(content.len()).ok().ok_or("too long")?;
    let size = stored.saturating_add(1);
    let mut words = vec![in alloc; 0x3F3, 0, 1, 0, 0, size, 0x3EA, stored]?;
    words.extend_from_slice(content)?;
    words.push(0x3F2)?;
    Ok(words)
}

/// What is told of it.
fn load_text(alloc: Global, stored: usize, content: &str) -> Result<String, Fail> {
    let size = stored.saturating_add(1);
    Ok(format!(in alloc;
        "{{\"hunks\":[{{\"debugs\":[],\"kind\":\"data\",\"memory\":\"any\",\"sites\":[],\
         \"size\":{size},\"stored\":{stored}{content},\"symbols\":[]}}],\"kind\":\"load file\"}}"
    )?)
}

#[test]
fn tells_contents(rt: HostRuntime) -> Result<(), Fail> {
    let alloc = rt.alloc();
    for (words, symbols) in &CONTENTS {
        for form in FORMS {
            let content = member(alloc, form, symbols, 16)?;
            let text = object_text(alloc, words.len(), content.as_str())?;
            is_written(
                &rt,
                alloc,
                form,
                &object_words(alloc, words)?,
                text.as_str(),
            )?;
            let content = member(alloc, form, symbols, 32)?;
            let text = load_text(alloc, words.len(), content.as_str())?;
            is_written(&rt, alloc, form, &load_words(alloc, words)?, text.as_str())?;
        }
    }
    Ok(())
}

/// The members about a content in this form.
fn member(alloc: Global, form: JsonForm, symbols: &str, offset: u32) -> Result<String, Fail> {
    match form {
        JsonForm::Plain => Ok(String::new(alloc)),
        JsonForm::WithContent | JsonForm::InPage => Ok(format!(in alloc;
            ",\"content\":\"{symbols}\",\"content_offset\":{offset}"
        )?),
    }
}

/// Two units with a hunk each, the second of which has a name and is not stored. Their contents begin
/// behind longwords 3 and 11.
static TWO_CONTENTS: [u32; 13] = [
    0x3E7, 0, 0x3EA, 1, 0xFB020910, 0x3F2, //
    0x3E7, 0, 0x3E8, 0, 0x400003EB, 7, 0x3F2,
];

static TWO_CONTENTS_TEXT: &str = "{\"kind\":\"object file\",\"units\":[\
     {\"hunks\":[{\"debugs\":[],\"definitions\":[],\"kind\":\"data\",\"memory\":\"any\",\"name\":\"\",\
     \"sites\":[],\"size\":1,\"content\":\"+wIJEA==\",\"content_offset\":16,\"symbols\":[]}],\"name\":\"\"},\
     {\"hunks\":[{\"debugs\":[],\"definitions\":[],\"kind\":\"bss\",\"memory\":\"chip\",\"name\":\"\",\
     \"sites\":[],\"size\":7,\"content\":\"\",\"content_offset\":48,\"symbols\":[]}],\"name\":\"\"}]}";

#[test]
fn counts_hunks_over_all_units(rt: HostRuntime) -> Result<(), Fail> {
    for form in [JsonForm::WithContent, JsonForm::InPage] {
        is_written(&rt, rt.alloc(), form, &TWO_CONTENTS, TWO_CONTENTS_TEXT)?;
    }
    Ok(())
}

/// Three hunks with the addresses of others: their contents begin behind longwords 9, 14 and 23.
static THREE_HUNKS_TEXT: &str = "{\"hunks\":[\
     {\"debugs\":[],\"kind\":\"code\",\"memory\":\"any\",\"sites\":[],\"size\":2,\"stored\":2,\
     \"content\":\"TnFOcU51TnE=\",\"content_offset\":40,\"symbols\":[]},\
     {\"debugs\":[],\"kind\":\"code\",\"memory\":\"any\",\"sites\":[{\"hunk\":2,\"offset\":0}],\"size\":1,\"stored\":1,\
     \"content\":\"AAAACA==\",\"content_offset\":60,\"symbols\":[]},\
     {\"debugs\":[],\"kind\":\"bss\",\"memory\":\"any\",\"sites\":[],\"size\":4,\"stored\":0,\
     \"content\":\"\",\"content_offset\":96,\"symbols\":[]}],\"kind\":\"load file\"}";

#[test]
fn tells_where_each_content_begins(rt: HostRuntime) -> Result<(), Fail> {
    for form in [JsonForm::WithContent, JsonForm::InPage] {
        is_written(&rt, rt.alloc(), form, &THREE_HUNKS, THREE_HUNKS_TEXT)?;
    }
    Ok(())
}

#[test]
fn is_out_of_memory_with_each_growth_refused(rt: HostRuntime) -> Result<(), Fail> {
    let alloc = rt.alloc();
    let devices = Devices {
        chunk: ENOUGH,
        ..WHOLE
    };
    for (words, text) in [
        (TWO_CONTENTS.as_slice(), TWO_CONTENTS_TEXT),
        (&THREE_HUNKS, THREE_HUNKS_TEXT),
    ] {
        let line = format!(in alloc; "{text}\n")?;
        let form = Text::Form(JsonForm::WithContent);
        let growths = growths(&rt, alloc, form, devices, words, line.as_bytes())?;
        holds(&rt, &("growths", growths), 2 <= growths);
    }
    Ok(())
}

#[test]
fn tells_what_a_writer_took(rt: HostRuntime) -> Result<(), Fail> {
    let alloc = rt.alloc();
    let words = object_words(alloc, &[0xFB020910])?;
    let content = member(alloc, JsonForm::WithContent, "+wIJEA==", 16)?;
    let text = object_text(alloc, 1, content.as_str())?;
    let form = Text::Form(JsonForm::WithContent);
    is_taken(&rt, alloc, form, &words, text.as_bytes())
}
