// Whether a structure's value is one that a label can hold.
ghost use Rattle.text.specs.Decides.{Decides};
ghost use Rattle.structure.specs.Donation.{LawfulDonation, LawfulFlags};
ghost use Rattle.structure.specs.Structures.{Lawful, LawfulProduct, LawfulAntigens2001};

use crate::write::own_worth;
use label::{Antigens2001, Donation, Flags, Groups, Lot, Product, Structure, Testing};

// A donation number, on a label and at the keyboard.
pub fn is_donation(d: Donation) -> bool
    ensures { Decides result (LawfulDonation d) }
{
    text::is_first_character(d.first)
        & (d.facility <= 9999)
        & (d.year <= 99)
        & (d.sequence <= 999999)
}

// Flags behind a donation number: 00 to 59, or those that carry the number's own check.
fn is_flags(d: Donation, f: Flags) -> bool
    ensures { Decides result (LawfulFlags d f) }
{
    if f.number <= 59 {
        return true;
    }
    f.number == 60 + own_worth(d)
}

fn is_groups(g: Groups) -> bool
    ensures { Decides result (Lawful (Structure.Groups g)) }
{
    text::is_upper_lower_digit(g.gg0)
        & text::is_upper_lower_digit(g.gg1)
        & text::is_upper_lower_digit(g.r)
}

// A product code, on a label and on the shelf list.
pub fn is_product(p: Product) -> bool
    ensures { Decides result (LawfulProduct p) }
{
    let front = text::is_upper(p.letter) & text::is_upper_digit(p.o0) & text::is_upper_digit(p.o1);
    let code = front & text::is_upper_digit(p.o2) & text::is_upper_digit(p.o3);
    let sets = code
        & text::is_upper_lower_digit(p.t)
        & text::is_upper_digit(p.d)
        & text::is_lower_digit(p.s);
    sets & (structure::d_goes(p.letter, p.d) & structure::s_goes(p.letter, p.d, p.s))
}

fn is_testing(t: Testing) -> bool
    ensures { Decides result (Lawful (Structure.Testing t)) }
{
    let front = text::is_upper_digit(t.c0)
        & text::is_upper_digit(t.c1)
        & text::is_upper_digit(t.c2);
    front & text::is_upper_digit(t.c3) & text::is_upper_digit(t.c4)
}

fn is_lot(l: Lot) -> bool
    ensures { Decides result (Lawful (Structure.Lot l)) }
{
    let three = text::is_upper_lower_digit(l.c0)
        & text::is_upper_lower_digit(l.c1)
        & text::is_upper_lower_digit(l.c2);
    let six = three
        & text::is_upper_lower_digit(l.c3)
        & text::is_upper_lower_digit(l.c4)
        & text::is_upper_lower_digit(l.c5);
    let nine = six
        & text::is_upper_lower_digit(l.c6)
        & text::is_upper_lower_digit(l.c7)
        & text::is_upper_lower_digit(l.c8);
    nine & text::is_upper_lower_digit(l.c9)
}

fn is_antigens_2001(a: Antigens2001) -> bool
    ensures { Decides result (LawfulAntigens2001 a) }
{
    (a.results <= 9999999999999999) & (a.ii <= 99)
}

// A structure; the empty one is none.
pub fn is_lawful(structure: Structure) -> bool
    ensures { Decides result (Lawful structure) }
{
    match structure {
        Structure::Empty => false,
        Structure::Donation(donation, flags) => is_donation(donation) & is_flags(donation, flags),
        Structure::Groups(groups) => is_groups(groups),
        Structure::Product(product) => is_product(product),
        Structure::Expiry(date) => calendar::is_lawful_date(date),
        Structure::ExpiryTime(date, time) => calendar::is_lawful_date(date)
            & calendar::is_lawful_time(time),
        Structure::Collection(date) => calendar::is_lawful_date(date),
        Structure::CollectionTime(date, time) => calendar::is_lawful_date(date)
            & calendar::is_lawful_time(time),
        Structure::Production(date) => calendar::is_lawful_date(date),
        Structure::ProductionTime(date, time) => calendar::is_lawful_date(date)
            & calendar::is_lawful_time(time),
        Structure::Testing(testing) => is_testing(testing),
        Structure::Antigens(antigens) => antigens.number <= 999999999999999999,
        Structure::Lot(lot) => is_lot(lot),
        Structure::Flexible(flexible, day, time) => flexible::is_lawful_flexible(flexible)
            & (months::is_lawful_day(day) & calendar::is_lawful_time(time)),
        Structure::Antigens2001(antigens) => is_antigens_2001(antigens),
    }
}
