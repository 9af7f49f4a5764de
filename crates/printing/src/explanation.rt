// The lines of an explanation (document 02, A5) as bytes on a page, from numbers alone.
ghost use Rattle.std.specs.Prelude.{◌+◌, length};
ghost use Rattle.rules.specs.Explanation.{head_at, head_name, head_line, decided_name, decided_line, explanation_lines};
ghost use Rattle.rules.specs.Statement.{member_lines};
ghost use Rattle.printing.specs.Page.{Adds, HasRoom};

use crate::page::Page;

// The name of the head at a place among the five; past them nothing.
fn put_head_name(page: &mut Page, place: usize)
    requires { HasRoom page.old (length (head_name place)) }
    ensures { Adds page.old page.new (length (head_name place)) (head_name place) }
{
    match place {
        0 => page.text(b"generation"),
        1 => page.text(b"load"),
        2 => page.text(b"import"),
        3 => page.text(b"export"),
        4 => page.text(b"share"),
        _ => {}
    }
}

// A head's line: its name, a blank, its grains.
fn put_head(page: &mut Page, place: usize, grains: i64)
    requires { HasRoom page.old (length (head_name place) + 23) }
    ensures { Adds page.old page.new (length (head_name place) + 23) (head_line place grains) }
{
    put_head_name(page, place);
    page.text(b" ");
    page.signed(grains);
    page.text(b"\n");
}

fn put_decided_name(page: &mut Page, decided: Option<usize>)
    requires { HasRoom page.old 10 }
    ensures { Adds page.old page.new 10 (decided_name decided) }
{
    match decided {
        Some(place) => put_head_name(page, place),
        None => page.text(b"none"),
    }
}

fn put_decided(page: &mut Page, decided: Option<usize>)
    requires { HasRoom page.old 19 }
    ensures { Adds page.old page.new 19 (decided_line decided) }
{
    page.text(b"decided ");
    put_decided_name(page, decided);
    page.text(b"\n");
}

// A line a head, in their order.
fn put_heads(page: &mut Page, heads: [i64; 5])
    requires { HasRoom page.old 146 }
    ensures { Adds page.old page.new 146 (member_lines (λ k. head_line k (head_at heads k)) 5) }
{
    for (place, grains) in heads.iter().enumerate() {
        put_head(page, place, *grains);
    }
}

// Five lines, a head each, and a sixth.
pub fn put_six_lines(page: &mut Page, heads: [i64; 5], decided: Option<usize>)
    requires { HasRoom page.old 165 }
    ensures { Adds page.old page.new 165 (explanation_lines heads decided) }
{
    put_heads(page, heads);
    put_decided(page, decided);
}
