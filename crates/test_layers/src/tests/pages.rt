//! Nodes in HTML: pages, pieces, names that can't be spelt, and what is read back.

use rt_edits::DocAttr;
use rt_html::{HtmlError, Plain, page_of, piece_of, read_html, write_html};
use rt_tree::{DocKind, DocNode, ElementId};
use rt_values::{List, OutOfMemory, Text};
use std::alloc::Global;
use std::test::Fail;

/// One node of this kind.
fn one(alloc: Global, kind: DocKind) -> Result<List<DocNode>, OutOfMemory> {
    let id = ElementId(7);
    let mut nodes = List::new(alloc);
    nodes.push(DocNode { id, kind })?;
    Ok(nodes)
}

/// A text.
fn words(alloc: Global, text: &str) -> Result<List<DocNode>, OutOfMemory> {
    one(alloc, DocKind::Text(Text::from_str(alloc, text)?))
}

fn attr(alloc: Global, name: &str, value: &str) -> Result<DocAttr, OutOfMemory> {
    Ok(DocAttr {
        name: Text::from_str(alloc, name)?,
        namespace: None,
        value: Text::from_str(alloc, value)?,
    })
}

/// An element of this tag, with the attributes id and title, around these nodes.
fn element(
    alloc: Global,
    tag: &str,
    title: &str,
    children: List<DocNode>,
) -> Result<List<DocNode>, OutOfMemory> {
    let mut attrs = List::new(alloc);
    attrs.push(attr(alloc, "id", "k")?)?;
    attrs.push(attr(alloc, "title", title)?)?;
    let kind = DocKind::Element {
        tag: Text::from_str(alloc, tag)?,
        namespace: None,
        attrs,
        listeners: List::new(alloc),
        children,
    };
    one(alloc, kind)
}

#[test]
fn an_element_is_spelt_with_its_attributes(rt: HostRuntime) -> Result<(), Fail> {
    let alloc = rt.alloc();
    let nodes = element(alloc, "p", "x", List::new(alloc))?;
    match write_html(alloc, nodes.as_slice()) {
        Ok(html) => assert_eq!(rt; html.as_str(), "<p id=\"k\" title=\"x\"></p>"),
        Err(error) => assert!(rt; false, "{error}"),
    }
    Ok(())
}

#[test]
fn five_characters_have_names(rt: HostRuntime) -> Result<(), Fail> {
    let alloc = rt.alloc();
    let nodes = element(alloc, "p", "\"1\n2\"", words(alloc, "a<b> & ü")?)?;
    let want = "<p id=\"k\" title=\"&quot;1&#10;2&quot;\"><!--t-->a&lt;b&gt; &amp; ü</p>";
    match write_html(alloc, nodes.as_slice()) {
        Ok(html) => assert_eq!(rt; html.as_str(), want),
        Err(error) => assert!(rt; false, "{error}"),
    }
    Ok(())
}

#[test]
fn a_page_ends_in_a_newline(rt: HostRuntime) -> Result<(), Fail> {
    let alloc = rt.alloc();
    match page_of(alloc, words(alloc, "Loading...")?.as_slice()) {
        Ok(html) => assert_eq!(rt; html.as_str(), "<!--t-->Loading...\n"),
        Err(error) => assert!(rt; false, "{error}"),
    }
    Ok(())
}

#[test]
fn a_piece_stands_in_a_template_of_its_number(rt: HostRuntime) -> Result<(), Fail> {
    let alloc = rt.alloc();
    let want = "<template id=\"4\"><!--t-->Article</template>\n";
    match piece_of(alloc, 4, words(alloc, "Article")?.as_slice()) {
        Ok(html) => assert_eq!(rt; html.as_str(), want),
        Err(error) => assert!(rt; false, "{error}"),
    }
    Ok(())
}

#[test]
fn a_tag_with_a_space_is_refused(rt: HostRuntime) -> Result<(), Fail> {
    let alloc = rt.alloc();
    let nodes = element(alloc, "a b", "x", List::new(alloc))?;
    match write_html(alloc, nodes.as_slice()) {
        Ok(_) => assert!(rt; false, "a tag with a space is spelt"),
        Err(error) => assert_eq!(rt; error, HtmlError::BadName),
    }
    Ok(())
}

/// Texts that aren't the spelling of any nodes, or of none that may be read.
static UNREAD: [&str; 12] = [
    "<p></p >",
    "<p>x</p>",
    "<!--t-->a>b",
    "x",
    "<p>",
    "</p>",
    "<p></q>",
    "<a b></a b>",
    "<p title=\"x\" id=\"k\"></p>",
    "<p id=\"k\" id=\"k\"></p>",
    "<p id='k'></p>",
    "<!--t-->&copy;",
];

#[test]
fn no_second_spelling_is_read(rt: HostRuntime) -> Result<(), Fail> {
    let alloc = rt.alloc();
    for text in &UNREAD {
        assert!(rt; read_html(alloc, text)?.is_none(), "{text}");
    }
    Ok(())
}

#[test]
fn an_element_is_read_back(rt: HostRuntime) -> Result<(), Fail> {
    let alloc = rt.alloc();
    let text = "<svg:p id=\"k\" title=\"&quot;1&#10;\"><!--t-->a&lt;b &amp; ü<!--p--></svg:p>";
    let Some(nodes) = read_html(alloc, text)? else {
        assert!(rt; false, "it isn't read");
        return Ok(());
    };
    assert_eq!(rt; nodes.len(), 1);
    match nodes.get(0) {
        Some(
            Plain::Element {
                tag,
                namespace: _,
                attrs,
                children,
            },
        ) => {
            assert_eq!(rt; tag.as_str(), "p");
            assert_eq!(rt; attrs.len(), 2);
            assert_eq!(rt; children.len(), 2);
        }
        _ => assert!(rt; false, "it is read as something else"),
    }
    Ok(())
}

/// So many elements in one another.
fn nested(alloc: Global, count: usize) -> Result<String, OutOfMemory> {
    let mut text = String::new(alloc);
    for _begin in 0..count {
        text.push_str("<p>")?;
    }
    for _end in 0..count {
        text.push_str("</p>")?;
    }
    Ok(text)
}

#[test]
fn nodes_of_1024_levels_are_read(rt: HostRuntime) -> Result<(), Fail> {
    let alloc = rt.alloc();
    let text = nested(alloc, 1024)?;
    assert!(rt; read_html(alloc, text.as_str())?.is_some());
    let text = nested(alloc, 1025)?;
    assert!(rt; read_html(alloc, text.as_str())?.is_none());
    Ok(())
}
