// The tags of a page's parts that have no numbers, so that a caller writes markup as it reads. What isn't here is no
// tag, but text.
ghost use Rattle.std.specs.Prelude.{◌≡◌, map, option_map};
ghost use Rattle.plc_html.specs.Tags.{tags};
ghost use Rattle.plc_html.specs.Fragments.{listed_tag};

const TAGS: [&[u8]; 49] = [
    b"</a>",
    b"<b>",
    b"</b>",
    b"<br>",
    b"<code>",
    b"</code>",
    b"<details>",
    b"<details open>",
    b"</details>",
    b"<summary>",
    b"</summary>",
    b"<div>",
    b"<div class=\"pair\">",
    b"<div class=\"wide\">",
    b"</div>",
    b"<h2>",
    b"<h2 id=\"file\">",
    b"<h2 id=\"points\">",
    b"<h2 id=\"run\">",
    b"</h2>",
    b"<h3>",
    b"</h3>",
    b"<h4>",
    b"</h4>",
    b"<ul>",
    b"</ul>",
    b"<li>",
    b"</li>",
    b"<p>",
    b"<p class=\"legend\">",
    b"<p class=\"nulls\">",
    b"</p>",
    b"<pre>",
    b"</pre>",
    b"<span class=\"changed\">",
    b"</span>",
    b"<table>",
    b"<table class=\"listing\">",
    b"<table class=\"picture\">",
    b"</table>",
    b"<tr>",
    b"</tr>",
    b"<th>",
    b"</th>",
    b"<td>",
    b"<td class=\"steps\">",
    b"</td>",
    b"</svg>",
    b"</text>",
];

/// The first tag of a table that begins at a `<` which is followed by this text.
fn listed_in(mut table: &[&'static [u8]], text: &[u8]) -> Option<&'static [u8]>
    ensures { option_map (λ t. t.now) result ≡ listed_tag (map (λ t. t.now) table.entry.now) text.now }
{
    while let [tag, rest @ ..] = table {
        if text.starts_with(tag.get(1..).unwrap_or(&[])) {
            return Some(*tag);
        }
        table = rest;
    }
    None
}

/// The listed tag that begins at a `<` which is followed by this text.
#[tactic(auto, unfolding(crate::specs::Tags::tags))]
pub(crate) fn listed_tag(text: &[u8]) -> Option<&'static [u8]>
    ensures { option_map (λ t. t.now) result ≡ listed_tag tags text.now }
{
    listed_in(&TAGS, text)
}
