//! Statements with the typing that each has.

// What stands in statements over the tables t (i, c, r) and v (o, b).

use crate::small::Answer::{Clash, Typed};
use crate::small::Ask::{Compare, Distinct, In, Item, Key, Minus, Order, Plus, Put, Set};
use crate::small::Kind::{Det, Plain};
use crate::small::Side::{Column, Null, One, Param};
use crate::small::{Answer, Ask, DET, Form, ID, OTHER, Part, RND, WIDE};
use sql_tree::conditions::Comparison::{Equal, Greater, GreaterEqual, Less, LessEqual, NotEqual};

// Statements of two parts, and what is inferred of each.
pub(crate) const WORKED: [(Form, [Part; 2], Answer); 8] = [
    // SELECT i FROM t WHERE c = @p AND r = @p
    (
        Form::Query,
        [
            (24, Compare(Equal, Column(DET), Param(0))),
            (35, Compare(Equal, Column(RND), Param(0))),
        ],
        Clash(35),
    ),
    // SELECT i FROM t WHERE @p = @q AND c = @q
    (
        Form::Query,
        [
            (25, Compare(Equal, Param(0), Param(1))),
            (36, Compare(Equal, Column(DET), Param(1))),
        ],
        Typed([Det(1), Det(1), Plain]),
    ),
    // SELECT i FROM t WHERE @p = @q AND i = 1
    (
        Form::Query,
        [
            (25, Compare(Equal, Param(0), Param(1))),
            (36, Compare(Equal, Column(ID), One)),
        ],
        Typed([Plain, Plain, Plain]),
    ),
    // SELECT i FROM t WHERE c = 1 AND c = @p
    (
        Form::Query,
        [
            (24, Compare(Equal, Column(DET), One)),
            (34, Compare(Equal, Column(DET), Param(0))),
        ],
        Clash(24),
    ),
    // SELECT i FROM t WHERE i = 1 AND c = @s
    (
        Form::Query,
        [
            (24, Compare(Equal, Column(ID), One)),
            (34, Compare(Equal, Column(DET), Param(2))),
        ],
        Clash(34),
    ),
    // SELECT i FROM t JOIN v ON c = o WHERE i = 1
    (
        Form::Query,
        [
            (28, Compare(Equal, Column(DET), Column(OTHER))),
            (40, Compare(Equal, Column(ID), One)),
        ],
        Clash(28),
    ),
    // SELECT DISTINCT r FROM t WHERE i = 1
    (
        Form::Query,
        [
            (7, Distinct(Column(RND))),
            (33, Compare(Equal, Column(ID), One)),
        ],
        Clash(7),
    ),
    // INSERT INTO t (i, c) VALUES (1, NULL)
    (
        Form::Insert,
        [(29, Put(ID, One)), (32, Put(DET, Null))],
        Typed([Plain, Plain, Plain]),
    ),
];

// Parts of queries.
pub(crate) const OF_QUERIES: [Ask; 21] = [
    Compare(Equal, Column(DET), Param(0)),
    Compare(NotEqual, Param(0), Column(DET)),
    Compare(Equal, Column(RND), Param(0)),
    Compare(Equal, Param(0), Param(1)),
    Compare(Equal, Param(1), Column(OTHER)),
    Compare(Equal, Param(0), Param(2)),
    Compare(Equal, Column(WIDE), Param(2)),
    Compare(Equal, Column(DET), Null),
    Compare(Equal, Param(1), One),
    Compare(Less, Param(0), Param(1)),
    Compare(LessEqual, Column(ID), Param(0)),
    In(Column(DET), Param(0), Param(1)),
    In(Param(0), Param(1), Column(OTHER)),
    Minus(Param(1)),
    Plus(Param(0), Param(2)),
    Distinct(Column(RND)),
    Item(Param(1), One),
    Order(ID),
    Order(DET),
    Key(DET),
    Key(RND),
];

// Parts of UPDATE.
pub(crate) const OF_UPDATES: [Ask; 10] = [
    Set(DET, Param(0)),
    Set(RND, Param(0)),
    Set(RND, Column(RND)),
    Set(DET, Param(2)),
    Set(ID, One),
    Set(RND, Null),
    Compare(Equal, Column(DET), Param(1)),
    Compare(GreaterEqual, Param(0), Column(ID)),
    Compare(Equal, Param(1), Param(0)),
    In(Param(1), Param(0), One),
];

// Values of INSERT.
pub(crate) const OF_INSERTS: [Ask; 7] = [
    Put(DET, Param(0)),
    Put(RND, Param(0)),
    Put(RND, Param(1)),
    Put(ID, Param(1)),
    Put(WIDE, Param(2)),
    Put(DET, One),
    Put(OTHER, Null),
];

// Conditions of DELETE.
pub(crate) const OF_DELETES: [Ask; 4] = [
    Compare(NotEqual, Column(DET), Param(0)),
    Compare(Equal, Null, Column(RND)),
    Compare(Equal, Param(1), Param(0)),
    Compare(Greater, Column(DET), One),
];

// Columns of the keys of CREATE TABLE.
pub(crate) const OF_TABLES: [Ask; 3] = [Key(ID), Key(DET), Key(RND)];
